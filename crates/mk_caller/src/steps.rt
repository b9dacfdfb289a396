//! The steps of a call, each with what is known of the call after it.
ghost use Rattle.std.specs.Prelude.{◌≡◌, ◌↔◌, OnOk, OnErr, IfSome, IfNone, Some, None, true, ◌+◌, ◌-◌, ◌*◌, ◌/◌, ◌%◌};
ghost use Rattle.std.specs.Prelude.{◌^◌, [], ◌∷◌};
ghost use Rattle.mk_never.specs.declared.values.{Value.TheVariants.Null, Target.TheVariants.Unmapped};
ghost use Rattle.mk_core.specs.{declared.accesses.Access.TheVariants.Store, Accesses.{register_met, reg_access}};
ghost use Rattle.mk_core.specs.Calls.{begun, g_of, i_of, onward, one_if, page_met, progress_getg, progress_read};
ghost use Rattle.mk_core.specs.Calls.{progress_reg, refused, value_written, word_met};
ghost use Rattle.mk_words.specs.States.{call_of};
ghost use Rattle.mk_words.specs.Below.Laws.Theorems.{has_q, has_some_q};
ghost use Rattle.mk_caller.specs.{States.{IsPassOfCaller, value_of}, Called.{FindsGateHeld, Probes, ProbesAWord}};
ghost use Rattle.mk_caller.specs.Moves.{MayBeginCall, IsUnderway, CallMoves, CallGoesOn, Ends, is_access};
ghost use Rattle.mk_caller.specs.Moves.{loads_register, stores_register};
ghost use Rattle.mk_core.specs.declared.events.Answer.TheVariants as answer;
ghost use Rattle.mk_core.specs.declared.events.Step.TheVariants as step;
ghost use Rattle.mk_core.specs.declared.seats.Stage.TheVariants as stage;

use crate::tables::CallerTable;
use mk_geom::{HEAP_START, PAGE_WORDS, WORD_BYTES, is_unmapped};
use mk_never::Op;
use mk_words::{Held, Pass};

/// Begins a call, unless the gate is held.
#[inline(always)]
pub(crate) fn enter(table: CallerTable, pass: &mut Pass, op: Op) -> Result<(), Held>
    requires own { IsPassOfCaller table.words.now table.caller pass.old }
    requires ready { MayBeginCall pass.old op }
    ensures moves { OnOk result (CallMoves pass.old op (step.Enter op)
        (record { flight = begun op; answer = None }) pass.new) }
    ensures held { OnErr result (FindsGateHeld pass.old op pass.new) }
{
    pass.is_in_order();
    pass.enter(table.words, table.caller, op)
}

/// Ends a call.
#[inline(always)]
pub(crate) fn leave(table: CallerTable, pass: &mut Pass)
    requires own { IsPassOfCaller table.words.now table.caller pass.old }
    requires underway { IsUnderway pass.old }
    requires stage { (call_of pass.old).stage ≡ stage.Leave }
    ensures moves { Ends pass.old (step.Leave ∷ []) None pass.new }
{
    pass.leave(table.words, table.caller);
}

/// Loads a register, which is 0 exactly where its value is null.
#[inline(always)]
pub(crate) fn load(table: CallerTable, pass: &mut Pass, r: u8) -> u64
    requires own { IsPassOfCaller table.words.now table.caller pass.old }
    requires underway { IsUnderway pass.old }
    requires stage { loads_register (call_of pass.old).stage ≡ true }
    requires register { r ≡ register_met (call_of pass.old) (call_of pass.old).stage }
    ensures moves { CallGoesOn pass.old step.Reg (λ f. progress_reg f f.stage result) pass.new }
    ensures null { (result ≡ 0) ↔ (value_of pass.old r ≡ Null) }
{
    pass.reg_load(table.words, table.caller, r)
}

/// Stores to a register.
#[inline(always)]
pub(crate) fn store(table: CallerTable, pass: &mut Pass, r: u8, v: u64)
    requires own { IsPassOfCaller table.words.now table.caller pass.old }
    requires underway { IsUnderway pass.old }
    requires stage { stores_register (call_of pass.old).stage ≡ true }
    requires register { r ≡ register_met (call_of pass.old) (call_of pass.old).stage }
    requires stores { reg_access (call_of pass.old) (call_of pass.old).stage ≡ Store v }
    ensures moves { CallGoesOn pass.old step.Reg (λ f. progress_reg f f.stage v) pass.new }
{
    pass.reg_store(table.words, table.caller, r, v);
}

/// Loads the word that the call accesses.
#[tactic(auto, using(crate::proofs::Stepping::access_admitted))]
#[inline(always)]
pub(crate) fn read(table: CallerTable, pass: &mut Pass, word: u64) -> u64
    requires own { IsPassOfCaller table.words.now table.caller pass.old }
    requires underway { IsUnderway pass.old }
    requires stage { (call_of pass.old).stage ≡ stage.Read }
    requires access { is_access (call_of pass.old).op ≡ true }
    requires word { word ≡ word_met (call_of pass.old) }
    ensures moves { CallGoesOn pass.old step.Read (λ f. progress_read f f.op result) pass.new }
{
    pass.read(table.words, table.pages, word)
}

/// Stores to the word that the call accesses.
#[tactic(auto, using(crate::proofs::Stepping::access_admitted))]
#[inline(always)]
pub(crate) fn write(table: CallerTable, pass: &mut Pass, word: u64, v: u64)
    requires own { IsPassOfCaller table.words.now table.caller pass.old }
    requires underway { IsUnderway pass.old }
    requires stage { (call_of pass.old).stage ≡ stage.Write }
    requires access { is_access (call_of pass.old).op ≡ true }
    requires word { word ≡ word_met (call_of pass.old) }
    requires value { v ≡ value_written (call_of pass.old) (call_of pass.old).op }
    ensures moves { CallGoesOn pass.old step.Write (λ f. onward f (Some answer.Done)) pass.new }
{
    pass.write(table.words, table.pages, word, v);
}

/// Exchanges the word that the call accesses, where it is as expected.
#[tactic(auto, using(crate::proofs::Stepping::access_admitted))]
#[inline(always)]
pub(crate) fn cas(table: CallerTable, pass: &mut Pass, word: u64, expected: u64, new: u64) -> bool
    requires own { IsPassOfCaller table.words.now table.caller pass.old }
    requires underway { IsUnderway pass.old }
    requires stage { (call_of pass.old).stage ≡ stage.Cas }
    requires access { is_access (call_of pass.old).op ≡ true }
    requires word { word ≡ word_met (call_of pass.old) }
    requires expected { expected ≡ (call_of pass.old).p }
    requires new { new ≡ (call_of pass.old).r }
    ensures moves { CallGoesOn pass.old step.Cas (λ f. onward f (Some (answer.Num (one_if result)))) pass.new }
{
    pass.cas(table.words, table.pages, word, expected, new)
}

/// Marks the page of the word that the call wrote.
#[inline(always)]
pub(crate) fn dirty(table: CallerTable, pass: &mut Pass, page: u64)
    requires own { IsPassOfCaller table.words.now table.caller pass.old }
    requires underway { IsUnderway pass.old }
    requires stage { (call_of pass.old).stage ≡ stage.Dirty }
    requires page { page ≡ page_met (call_of pass.old) }
    ensures moves { CallGoesOn pass.old step.Dirty (λ f. onward f None) pass.new }
{
    pass.dirty(table.words, table.pages, page);
}

/// Loads the global of the call.
#[inline(always)]
pub(crate) fn global_load(table: CallerTable, pass: &mut Pass, g: u8) -> u64
    requires own { IsPassOfCaller table.words.now table.caller pass.old }
    requires underway { IsUnderway pass.old }
    requires stage { (call_of pass.old).stage ≡ stage.Getg }
    requires global { g ≡ g_of (call_of pass.old).op }
    ensures moves { CallGoesOn pass.old step.Getg (λ f. progress_getg f result) pass.new }
{
    pass.global_load(table.words, g)
}

/// Stores to the global of the call.
#[inline(always)]
pub(crate) fn global_store(table: CallerTable, pass: &mut Pass, g: u8, v: u64)
    requires own { IsPassOfCaller table.words.now table.caller pass.old }
    requires underway { IsUnderway pass.old }
    requires stage { (call_of pass.old).stage ≡ stage.Setg }
    requires global { g ≡ g_of (call_of pass.old).op }
    requires value { v ≡ (call_of pass.old).p }
    ensures moves { CallGoesOn pass.old step.Setg (λ f. onward f (Some answer.Done)) pass.new }
{
    pass.global_store(table.words, g, v);
}

/// Loads the header of the page of the word that the call accesses, through the value `u` and `i` words on. Answers the
/// word, and none where its page is unmapped.
#[tactic(auto, using(crate::proofs::Stepping::access_admitted))]
#[inline(always)]
pub(crate) fn probe(table: CallerTable, pass: &mut Pass, u: u64, i: u64) -> Option<u64>
    requires own { IsPassOfCaller table.words.now table.caller pass.old }
    requires underway { IsUnderway pass.old }
    requires stage { (call_of pass.old).stage ≡ stage.Probe }
    requires access { is_access (call_of pass.old).op ≡ true }
    requires value { u ≡ (call_of pass.old).q }
    requires offset { i ≡ i_of (call_of pass.old).op }
    ensures moves { IfSome result (λ word. CallGoesOn pass.old step.Probe (λ f. onward f None) pass.new) }
    ensures word { IfSome result (λ word. word ≡ word_met (call_of pass.old)) }
    ensures reached { IfSome result (λ word. ProbesAWord pass.old (call_of pass.old).op pass.new) }
    ensures refused { IfNone result (CallGoesOn pass.old step.Probe (λ f. refused f answer.Fault) pass.new) }
    ensures unmapped { IfNone result (Probes pass.old (call_of pass.old).op pass.new Unmapped) }
{
    let word = (u - HEAP_START) / WORD_BYTES + i;
    // The number of a word fits 32 bits, in which its page is a single shift away.
    let page = u64::from(word as u32 / PAGE_WORDS as u32);
    let header = pass.probe(table.words, page);
    if is_unmapped(header) {
        None
    } else {
        Some(word)
    }
}

/// The value `i` words after the value that the call has loaded.
#[inline(always)]
pub(crate) fn moved_on(table: CallerTable, pass: &Pass, u: u64, i: u64) -> u64
    requires own { IsPassOfCaller table.words.now table.caller pass.now }
    requires underway { IsUnderway pass.now }
    requires stage { (call_of pass.now).stage ≡ stage.Store }
    requires access { is_access (call_of pass.now).op ≡ true }
    requires loaded { has_q stage.Store (call_of pass.now).op ≡ true }
    requires some { has_some_q stage.Store (call_of pass.now).op ≡ true }
    requires value { u ≡ (call_of pass.now).q }
    requires offset { i ≡ i_of (call_of pass.now).op }
    ensures { result ≡ (u + 8 * i) % 2 ^ 64 }
{
    u + 8 * i
}
