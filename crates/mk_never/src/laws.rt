//! Laws of the heap that never reuses storage: what holds of any calls, one after the other. Each is the
//! contract of a function that does nothing.
ghost use Rattle.std.specs.Prelude.{◌≡◌, ◌≢◌, ◌↔◌, ℕ, ◌<◌, ◌≤◌, Bool, List, length, false, IsTrue};
ghost use Rattle.mk_never.specs.{NeverHeap.{NeverState, Call, start_of, after_calls, is_same}, Admitted.AreAdmitted};
ghost use Rattle.mk_never.specs.Laws.{Continues, TypeStays, FreedStays, SameTells, NewAdds, AreByOthers, AreNotBy};
ghost use Rattle.mk_never.specs.Laws.{KeepsRegisters, UnstoredStays, StoreIsInside, StoreLeaves, LoadGivesStored};
ghost use Rattle.mk_never.specs.{Laws.{LeavesInParts, RepliesInParts, AdmittedInParts}, Admitted.{IsTyped, KeepsTyped}};
ghost use Rattle.mk_never.specs.{Admitted.StaysTyped, Laws.{IsReachable, IsClosedUnderPointers, ReachIsLeast}};
ghost use Rattle.mk_never.specs.Laws.{AccessIsToReached, ReachGrowsByGrants, UnreachedStays};

use crate::{Kind, Op, Value};

/// After admitted calls words, registers and globals hold what their types say. A pointer in them names an allocation
/// that exists, of the pointer's type, and a word of it, or place 0 if the type has no words.
#[tactic(auto, using(crate::proofs::TypedCalls::the_state_stays_typed_facts))]
pub fn the_state_stays_typed()
    ensures start { (globals : List ℕ) (types : List (List Kind)) (callers : ℕ)
        → IsTyped globals (start_of types callers) }
    ensures kept { (globals : List ℕ) (n : NeverState) (calls : List Call) → KeepsTyped globals n calls }
    ensures along { (globals : List ℕ) (types : List (List Kind)) (callers : ℕ) (calls : List Call)
        → StaysTyped globals types callers calls }
{}

/// An allocation stays, whatever is called after its grant.
#[tactic(auto, using(crate::proofs::Later::calls_stay))]
pub fn allocations_stay()
    ensures { (n : NeverState) (calls : List Call) → Continues n (after_calls n calls) }
{}

/// An allocation's type and the number of its words never change.
#[tactic(auto, using(crate::proofs::Later::types_stay))]
pub fn types_stay()
    ensures { (n : NeverState) (calls : List Call) (number : ℕ) → number < length n.allocations
        → TypeStays n (after_calls n calls) number }
{}

/// What is freed stays freed.
#[tactic(auto, using(crate::proofs::Later::freed_stays_freed))]
pub fn freed_stays_freed()
    ensures { (n : NeverState) (calls : List Call) (number : ℕ) → FreedStays n (after_calls n calls) number }
{}

/// What a `New` gives has the next number. No allocation had it in any state before.
#[tactic(auto, using(crate::proofs::Fresh::new_adds, crate::proofs::Fresh::count_never_falls))]
pub fn a_new_is_new()
    ensures next { (n : NeverState) (caller d ty : ℕ) → NewAdds n caller d ty }
    ensures count_never_falls { (n : NeverState) (calls : List Call)
        → length n.allocations ≤ length (after_calls n calls).allocations }
{}

/// The calls of others leave a caller's registers as they are. All that is asked of them is that each sets one of its
/// own caller's eight registers, as admitted calls do.
#[tactic(auto, using(crate::proofs::Registers::calls_keep, crate::proofs::Registers::admitted_keep))]
pub fn others_leave_registers()
    ensures in_range { (n : NeverState) (caller : ℕ) (calls : List Call) → AreByOthers caller calls
        → KeepsRegisters caller n (after_calls n calls) }
    ensures admitted { (globals : List ℕ) (n : NeverState) (caller : ℕ) (calls : List Call)
        → AreAdmitted globals n calls
        → AreNotBy caller calls → KeepsRegisters caller n (after_calls n calls) }
{}

/// A comparison says whether two values are equal, so it tells two allocations apart.
#[tactic(auto, using(crate::proofs::Sameness::same_compares_values_facts))]
pub fn same_compares_values()
    ensures values { (v w : Value) → IsTrue (is_same v w) ↔ (v ≡ w) }
    ensures apart { (number number' ty ty' offset offset' : ℕ) → number ≢ number'
        → is_same (Value.Ptr number ty offset) (Value.Ptr number' ty' offset') ≡ false }
    ensures reply { (n : NeverState) (caller p q : ℕ) → SameTells n caller p q }
{}

/// Only stores to a word change it, and a load from it gives what was last stored.
#[tactic(auto, using(crate::proofs::Stores::a_load_gives_what_was_last_stored_facts))]
pub fn a_load_gives_what_was_last_stored()
    ensures unstored { (n : NeverState) (calls : List Call) (number place : ℕ) → UnstoredStays n calls number place }
    ensures inside { (n : NeverState) (caller : ℕ) (op : Op) (number place : ℕ)
        → StoreIsInside n caller op number place }
    ensures stored { (n : NeverState) (caller : ℕ) (op : Op) (number place : ℕ) → StoreLeaves n caller op number place }
    ensures loaded { (n : NeverState) (caller : ℕ) (op : Op) (calls : List Call) (number place : ℕ)
        → LoadGivesStored n caller op calls number place }
{}

/// What pointers in registers and globals lead to, directly or along words, is reached, and nothing else is. The words
/// of a freed large allocation lead nowhere.
#[tactic(auto, using(crate::proofs::Reached::reach_is_closed, crate::proofs::Reached::reach_is_least))]
pub fn what_is_reached()
    ensures closed { (n : NeverState) → IsClosedUnderPointers n (IsReachable n) }
    ensures least { (n : NeverState) (S : ℕ → Bool) → ReachIsLeast n S }
{}

/// What isn't reached never is again. Accesses get to reached allocations only, and all that an operation adds to them
/// is the allocation that it grants.
#[tactic(auto, using(crate::proofs::Unreached::the_unreached_stays_so_facts))]
pub fn the_unreached_stays_so()
    ensures accessed { (n : NeverState) (caller q i number place : ℕ) → AccessIsToReached n caller q i number place }
    ensures grown { (n : NeverState) (caller : ℕ) (op : Op) (number : ℕ) → ReachGrowsByGrants n caller op number }
    ensures stays { (n : NeverState) (calls : List Call) (number : ℕ) → UnreachedStays n calls number }
{}

/// A list of calls leaves, replies and is admitted as its first part is, and then its second part after that.
#[tactic(auto, using(crate::proofs::Parts::calls_in_two_parts_facts))]
pub fn calls_in_two_parts()
    ensures left { (n : NeverState) (earlier later : List Call) → LeavesInParts n earlier later }
    ensures replies { (n : NeverState) (earlier later : List Call) → RepliesInParts n earlier later }
    ensures admitted { (globals : List ℕ) (n : NeverState) (earlier later : List Call)
        → AdmittedInParts globals n earlier later }
{}
