//! A law of owned numbers: a fact alone, with no code.
ghost use Rattle.std.specs.Prelude.{ℕ, List, [], ◌∷◌, ◌++◌};
ghost use Rattle.mk_core.specs.declared.events.{Event.Event, Seat.TheVariants.Caller};
ghost use Rattle.mk_core.specs.History.{AreOfOthers, IsHistory};
ghost use Rattle.mk_heap.specs.Below.{Words.States.PassState, Callers.States.caller_of_pass};
ghost use Rattle.mk_clients.specs.Owned.{HasNumber, OwnsNumber, number_owned};

/// Whatever other seats do, other callers, markers or the host, a number that is owned stays so, and stays the same.
pub fn owned_numbers_stay()
    ensures { (p : PassState) (more : List Event) (d : ℕ) → IsHistory p.table.config (p.seen ++ more)
        → AreOfOthers (Caller (caller_of_pass p) ∷ []) more → OwnsNumber p d
        → HasNumber (record p { seen = p.seen ++ more }) d (number_owned p d) }
{}
