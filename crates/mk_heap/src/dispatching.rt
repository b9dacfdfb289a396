//! The operations of a caller, each with its answer.
ghost use Rattle.std.specs.Prelude.{◌≡◌, ◌<◌, IfOk, IfErr, OnErr, IfSome, IfNone, true, false, Bool};
ghost use Rattle.mk_core.specs.Calls.{is_under_turn};
ghost use Rattle.mk_never.specs.declared.operations.Op.{Op};
ghost use Rattle.mk_alloc.specs.Below.Callers.{Called.{FindsGateHeld, IsRefused}, Moves.is_access};
ghost use Rattle.mk_alloc.specs.{Below.Callers.States.{caller_of_pass, Admits}, TurnCalls.MayTakeTurns};
ghost use Rattle.mk_alloc.specs.Rooms.{PassKeeps};
ghost use Rattle.mk_heap.specs.Dispatching.{Answers, IsCalled, IsPutOff, StaysAdmitted, StaysBeside};

use mk_alloc::lower::callers::{Caller, Refusal};
use mk_alloc::lower::cycles::Engine;
use mk_alloc::lower::words::{Held, Patience};
use mk_alloc::{free_object, new_object};
use mk_core::Answer;
use mk_never::Op;
use std::sync::Wait;
use std::thread::Threads;

/// An access through a register.
#[inline(always)]
fn access(caller: &mut Caller, op: Op) -> Result<Answer, Refusal>
    requires home { caller.old.home ≡ true }
    requires access { is_access op ≡ true }
    requires admitted { Admits caller.old.pass op }
    ensures home { caller.new.home ≡ true }
    ensures called { IfOk result (λ told. IsCalled caller.old.pass op told caller.new.pass) }
    ensures refused { IfErr result (λ e. IsRefused caller.old.pass op e caller.new.pass) }
{
    match op {
        Op::GetNum { q, i } => Ok(Answer::Num(caller.get_num(q, i)?)),
        Op::SetNum { q, i, n } => {
            caller.set_num(q, i, n)?;
            Ok(Answer::Done)
        }
        Op::GetPtr { d, q, i } => {
            caller.get_ptr(d, q, i)?;
            Ok(Answer::Word(0))
        }
        Op::SetPtr { q, i, p } => {
            caller.set_ptr(q, i, p)?;
            Ok(Answer::Done)
        }
        Op::CasPtr { q, i, p, r } => Ok(Answer::Num(u64::from(caller.cas_ptr(q, i, p, r)?))),
        Op::Lea { d, q, i } => {
            caller.lea(d, q, i)?;
            Ok(Answer::Done)
        }
        _ => unreachable!(),
    }
}

/// An operation that takes no turn: one on registers and globals, or an access. Which pointer was loaded isn't
/// reported.
#[inline(always)]
fn call(caller: &mut Caller, op: Op) -> Result<Answer, Held>
    requires home { caller.old.home ≡ true }
    requires entered { is_under_turn op ≡ false }
    requires admitted { Admits caller.old.pass op }
    ensures home { caller.new.home ≡ true }
    ensures called { IfOk result (λ told. IsCalled caller.old.pass op told caller.new.pass) }
    ensures held { OnErr result (FindsGateHeld caller.old.pass op caller.new.pass) }
{
    match op {
        Op::New { .. } | Op::Free { .. } => unreachable!(),
        Op::Move { d, q } => {
            caller.move_ptr(d, q)?;
            Ok(Answer::Done)
        }
        Op::Clear { d } => {
            caller.clear(d)?;
            Ok(Answer::Done)
        }
        Op::GetGlobal { d, g } => {
            caller.get_global(d, g)?;
            Ok(Answer::Word(0))
        }
        Op::SetGlobal { g, p } => {
            caller.set_global(g, p)?;
            Ok(Answer::Done)
        }
        Op::Same { p, q } => Ok(Answer::Num(u64::from(caller.same(p, q)?))),
        Op::IsNull { p } => Ok(Answer::Num(u64::from(caller.is_null(p)?))),
        _ => match access(caller, op) {
            Ok(told) => Ok(told),
            Err(Refusal::Fault) => Ok(Answer::Fault),
            Err(Refusal::Null) => Ok(Answer::Null),
            Err(Refusal::Held) => Err(Held),
        },
    }
}

/// Carries out an operation that takes no turn, once its gate is open, and returns its answer. Which pointer was loaded
/// isn't reported.
#[cold]
#[inline(never)]
pub fn answer_when_open<R: Wait>(rt: &R, caller: &mut Caller, op: Op) -> Answer
    requires home { caller.old.home ≡ true }
    requires exists { caller_of_pass caller.old.pass < caller.old.pass.table.config.callers }
    requires entered { is_under_turn op ≡ false }
    requires admitted { StaysAdmitted caller.old.pass op }
    ensures home { caller.new.home ≡ true }
    ensures answers { (on : Bool) → Answers on caller.old.pass op result caller.new.pass }
{
    let words = caller.words();
    let number = caller.number();
    let mut patience = Patience::new();
    'held: for _ in rt.forever() {
        match call(caller, op) {
            Ok(told) => return told,
            Err(_) => patience.pause_for_gate(rt, words, number),
        }
    }
    unreachable!()
}

/// Carries out an operation that takes no turn, and returns its answer; none where its gate is held. A New and a Free
/// are put off. Nothing of it waits, so that the answer is at hand where the call is made.
#[inline(always)]
pub fn answer_at_once(caller: &mut Caller, op: Op) -> Option<Answer>
    requires home { caller.old.home ≡ true }
    requires admitted { StaysAdmitted caller.old.pass op }
    ensures home { caller.new.home ≡ true }
    ensures answers { IfSome result (λ told. (on : Bool) → Answers on caller.old.pass op told caller.new.pass) }
    ensures put_off { IfNone result (IsPutOff caller.old.pass op caller.new.pass) }
    ensures beside { StaysBeside caller.old.pass caller.new.pass }
{
    match op {
        Op::New { .. } | Op::Free { .. } => None,
        _ => match call(caller, op) {
            Ok(told) => Some(told),
            Err(_) => None,
        },
    }
}

/// Carries out an operation that is put off: a New or a Free in a turn, and another once its gate is open. Its kind is
/// told before all else, so that it is known where the call was made.
#[inline(always)]
pub fn answer_put_off<E: Engine, R: Threads + Wait + Sync>(
    rt: &R,
    caller: &mut Caller,
    engine: &mut E,
    op: Op,
) -> Answer
    requires may { MayTakeTurns (E.made_for engine.old) caller.old }
    requires admitted { StaysAdmitted caller.old.pass op }
    ensures home { caller.new.home ≡ true }
    ensures made_for { E.made_for engine.new ≡ E.made_for engine.old }
    ensures answers { Answers E.ways.on caller.old.pass op result caller.new.pass }
    ensures keeps { PassKeeps false E.ways caller.old.pass caller.new.pass }
{
    match op {
        Op::New { d, ty, .. } => {
            match new_object(rt, caller, engine, d, ty) {
                Ok(()) => Answer::Done,
                Err(_) => Answer::Full,
            }
        }
        Op::Free { p } => {
            match free_object(rt, caller, engine, p) {
                Ok(_) => Answer::Done,
                Err(_) => Answer::Double,
            }
        }
        _ => answer_when_open(rt, caller, op),
    }
}

/// Carries out any operation, and returns its answer: a New or a Free in a turn, and another beside the turn, once its
/// gate is open. Which pointer was loaded isn't reported.
#[inline(always)]
pub fn answer_to<E: Engine, R: Threads + Wait + Sync>(
    rt: &R,
    caller: &mut Caller,
    engine: &mut E,
    op: Op,
) -> Answer
    requires may { MayTakeTurns (E.made_for engine.old) caller.old }
    requires admitted { StaysAdmitted caller.old.pass op }
    ensures home { caller.new.home ≡ true }
    ensures made_for { E.made_for engine.new ≡ E.made_for engine.old }
    ensures answers { Answers E.ways.on caller.old.pass op result caller.new.pass }
    ensures keeps { PassKeeps false E.ways caller.old.pass caller.new.pass }
{
    match answer_at_once(caller, op) {
        Some(answer) => answer,
        None => answer_put_off(rt, caller, engine, op),
    }
}
