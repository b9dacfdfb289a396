//! Parts of a turn that every call has.
ghost use Rattle.std.specs.Prelude.{◌≡◌, ◌==◌, ◌<◌, ◌∷◌, [], Some, true};
ghost use Rattle.mk_core.specs.{Calls.{at_rest, has_operands, is_under_turn}, Words.phase_of};
ghost use Rattle.mk_caller.specs.Below.Words.{States.{call_of, now_of}, Steps.Makes};
ghost use Rattle.mk_caller.specs.Below.Words.TurnSteps.{TakesTurn};
ghost use Rattle.mk_caller.specs.States.{IsIdleCaller, caller_of_pass};
ghost use Rattle.mk_alloc.specs.Rooms.{BeginsTurn, IsQuiet};
ghost use Rattle.mk_core.specs.declared.events.Step.TheVariants as step;
ghost use Rattle.mk_core.specs.declared.seats.Stage.TheVariants as stage;
ghost use Rattle.mk_cycle.specs.TurnKeeps.{is_look, OnlyDoes};

use mk_caller::lower::words::{Pass, Turn, Words, take_turn};
use mk_core::{Phase, Word};
use mk_never::Op;
use std::sync::Wait;

/// Waits for the turn, and takes it for an operation of a caller whose seat is the pass's only one.
#[inline(always)]
pub(crate) fn take<R: Wait>(rt: &R, words: &Words, home: Pass, op: Op) -> Turn
    requires one_table { home.table ≡ words.now }
    requires idle { IsIdleCaller home }
    requires exists { caller_of_pass home < home.table.config.callers }
    requires alone { home.seats ≡ home.seat ∷ [] }
    requires under_turn { is_under_turn op ≡ true }
    requires operands { has_operands home.table.config op ≡ true }
    ensures takes { TakesTurn home (Some op) result.pass }
    ensures begins { BeginsTurn op result.pass }
{
    let turn = take_turn(rt, words, home, Some(op));
    turn.is_in_order();
    turn
}

/// Looks whether a cycle is on.
pub(crate) fn is_cycle_on(words: &Words, turn: &mut Turn) -> bool
    requires one_table { turn.old.pass.table ≡ words.now }
    requires quiet { IsQuiet turn.old.pass }
    ensures looks { OnlyDoes is_look turn.old.pass turn.new.pass }
    ensures on { result ≡ (phase_of (now_of turn.old.pass).words == 1) }
{
    let found = turn.look(words, Word::Phase);
    Phase::Marking.is_in(found)
}

/// Gives the turn of a call that is decided back.
#[inline(always)]
pub(crate) fn give(words: &Words, turn: Turn) -> Pass
    requires one_table { turn.pass.table ≡ words.now }
    requires quiet { IsQuiet turn.pass }
    requires decided { (call_of turn.pass).stage ≡ stage.Give }
    ensures gives { Makes turn.pass step.Give result }
    ensures rests { call_of result ≡ at_rest }
{
    turn.give(words)
}
