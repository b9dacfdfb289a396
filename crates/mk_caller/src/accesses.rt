//! What several calls do in the same way: they begin an access through a register, probe its page, and end.
ghost use Rattle.std.specs.Prelude.{◌≡◌, ◌≢◌, IfOk, IfErr, IfSome, IfNone, Some, None, true, [], ◌∷◌, ◌++◌};
ghost use Rattle.mk_never.specs.declared.values.{Target.TheVariants.Unmapped, Value.TheVariants.Null};
ghost use Rattle.mk_core.specs.{declared.accesses.Access.TheVariants.Store, Accesses.reg_access};
ghost use Rattle.mk_core.specs.Calls.{at_rest, onward, stage_refused, stage_behind, steps_of, q_of, i_of, d_of};
ghost use Rattle.mk_core.specs.Calls.{word_met, progress_reg};
ghost use Rattle.mk_words.specs.States.{call_of};
ghost use Rattle.mk_caller.specs.{States.{IsPassOfCaller, value_of}, Called.{Probes, ProbesAWord, IsRefused}};
ghost use Rattle.mk_caller.specs.Called.{destination};
ghost use Rattle.mk_caller.specs.Moves.{MayBeginCall, IsUnderway, IsAtFlight, Ends, CallGoesOn, is_access};
ghost use Rattle.mk_caller.specs.Moves.{stores_register, refused_steps, behind_q};
ghost use Rattle.mk_core.specs.declared.events.Answer.TheVariants as answer;
ghost use Rattle.mk_core.specs.declared.events.Step.TheVariants as step;
ghost use Rattle.mk_core.specs.declared.seats.Stage.TheVariants as stage;

use crate::refusals::Refusal;
use crate::steps::{dirty, enter, leave, load, probe, store};
use crate::tables::CallerTable;
use mk_never::Op;
use mk_words::Pass;

/// Ends a call that is refused: the register that it would have loaded becomes null.
pub(crate) fn refuse(table: CallerTable, pass: &mut Pass, d: Option<u8>)
    requires own { IsPassOfCaller table.words.now table.caller pass.old }
    requires underway { IsUnderway pass.old }
    requires stage { (call_of pass.old).stage ≡ stage_refused (call_of pass.old).op }
    requires loaded { (call_of pass.old).loaded ≡ 0 }
    requires access { is_access (call_of pass.old).op ≡ true }
    requires register { d ≡ destination (call_of pass.old).op }
    ensures { Ends pass.old (refused_steps (call_of pass.old).op) None pass.new }
{
    match d {
        Some(d) => {
            store(table, pass, d, 0);
            leave(table, pass);
        }
        None => leave(table, pass),
    }
}

/// Stores the last register of a call, and ends it.
#[inline(always)]
pub(crate) fn store_and_leave(table: CallerTable, pass: &mut Pass, d: u8, v: u64)
    requires own { IsPassOfCaller table.words.now table.caller pass.old }
    requires underway { IsUnderway pass.old }
    requires stage { stores_register (call_of pass.old).stage ≡ true }
    requires register { d ≡ d_of (call_of pass.old).op }
    requires stores { reg_access (call_of pass.old) (call_of pass.old).stage ≡ Store v }
    requires last { (progress_reg (call_of pass.old) (call_of pass.old).stage v).flight.stage ≡ stage.Leave }
    ensures { Ends pass.old (step.Reg ∷ step.Leave ∷ [])
        (progress_reg (call_of pass.old) (call_of pass.old).stage v).answer pass.new }
{
    store(table, pass, d, v);
    leave(table, pass);
}

/// Marks the page of the word that a call wrote, and ends it.
#[inline(always)]
pub(crate) fn mark_and_leave(table: CallerTable, pass: &mut Pass, word: u64)
    requires own { IsPassOfCaller table.words.now table.caller pass.old }
    requires underway { IsUnderway pass.old }
    requires stage { (call_of pass.old).stage ≡ stage.Dirty }
    requires word { word ≡ word_met (call_of pass.old) }
    requires last { stage_behind stage.Dirty (steps_of (call_of pass.old).op) ≡ stage.Leave }
    ensures { Ends pass.old (step.Dirty ∷ step.Leave ∷ []) None pass.new }
{
    dirty(table, pass, word / 64);
    leave(table, pass);
}

/// Begins a call that accesses through register q, and loads that. A call through null is refused, and ends.
#[inline(always)]
pub(crate) fn begin_access(
    table: CallerTable,
    pass: &mut Pass,
    op: Op,
    d: Option<u8>,
    q: u8,
) -> Result<u64, Refusal>
    requires own { IsPassOfCaller table.words.now table.caller pass.old }
    requires ready { MayBeginCall pass.old op }
    requires access { is_access op ≡ true }
    requires from { q ≡ q_of op }
    requires register { d ≡ destination op }
    ensures begun { IfOk result (λ u. IsAtFlight pass.old op (step.Enter op ∷ step.Reg ∷ []) None (behind_q op u)
        pass.new) }
    ensures some { IfOk result (λ u. value_of pass.old q ≢ Null) }
    ensures refused { IfErr result (λ e. IsRefused pass.old op e pass.new) }
{
    match enter(table, pass, op) {
        Err(_) => Err(Refusal::Held),
        Ok(()) => {
            let u = load(table, pass, q);
            if u == 0 {
                refuse(table, pass, d);
                Err(Refusal::Null)
            } else {
                Ok(u)
            }
        }
    }
}

/// Probes the page of the word that a call accesses, and answers the word. A call to an unmapped page is refused, and
/// ends.
#[inline(always)]
pub(crate) fn probe_access(
    table: CallerTable,
    pass: &mut Pass,
    d: Option<u8>,
    u: u64,
    i: u64,
) -> Option<u64>
    requires own { IsPassOfCaller table.words.now table.caller pass.old }
    requires underway { IsUnderway pass.old }
    requires stage { (call_of pass.old).stage ≡ stage.Probe }
    requires access { is_access (call_of pass.old).op ≡ true }
    requires value { u ≡ (call_of pass.old).q }
    requires offset { i ≡ i_of (call_of pass.old).op }
    requires register { d ≡ destination (call_of pass.old).op }
    ensures moves { IfSome result (λ word. CallGoesOn pass.old step.Probe (λ f. onward f None) pass.new) }
    ensures word { IfSome result (λ word. word ≡ word_met (call_of pass.old)) }
    ensures reached { IfSome result (λ word. ProbesAWord pass.old (call_of pass.old).op pass.new) }
    ensures refused { IfNone result (Ends pass.old (step.Probe ∷ refused_steps (call_of pass.old).op)
        (Some answer.Fault) pass.new) }
    ensures unmapped { IfNone result (Probes pass.old (call_of pass.old).op pass.new Unmapped) }
{
    match probe(table, pass, u, i) {
        None => {
            refuse(table, pass, d);
            None
        }
        Some(word) => Some(word),
    }
}
