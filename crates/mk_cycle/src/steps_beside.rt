//! Steps of a turn while a cycle marks, beside callers and markers.
ghost use Rattle.std.specs.Prelude.{◌≡◌, true, false, not};
ghost use Rattle.mk_core.specs.{Cells.is_marked, Moments.is_held, Conditions.is_word, Words.named_word};
ghost use Rattle.mk_words.specs.States.{now_of};
ghost use Rattle.mk_cycle.specs.{TurnKeeps.KeepsGates, Grays.{IsInHand, HandPointsInto}, Stops.{hand_of, is_root}};
ghost use Rattle.mk_cycle.specs.{Stops.IsForGate, Beside.{FindsInRoot, GoesBeside, IsBeside, IsOpenToLook, SetsGate}};
ghost use Rattle.mk_cycle.specs.Beside.{gives_no_hand};

use crate::gates::hold_gate;
use mk_core::{Word, bit};
use mk_geom::Cell;
use mk_words::{Turn, Words};
use std::sync::Wait;

/// Looks at a word that gives no hand.
#[inline(always)]
pub(crate) fn look_at(words: &Words, turn: &mut Turn, x: Word) -> u64
    requires one_table { turn.old.pass.table ≡ words.now }
    requires beside { IsBeside turn.old.pass }
    requires in_range { is_word words.now.config x ≡ true }
    requires plain { gives_no_hand x ≡ true }
    ensures on { GoesBeside turn.old turn.new }
    ensures gates { KeepsGates turn.old.pass turn.new.pass }
    ensures hand { hand_of turn.new.pass ≡ hand_of turn.old.pass }
    ensures reads { result ≡ named_word (now_of turn.new.pass).words x }
{
    turn.look(words, x)
}

/// Looks at a register or a global, whose value is then the hand.
#[inline(always)]
pub(crate) fn look_at_root(words: &Words, turn: &mut Turn, x: Word) -> u64
    requires one_table { turn.old.pass.table ≡ words.now }
    requires beside { IsBeside turn.old.pass }
    requires in_range { is_word words.now.config x ≡ true }
    requires root { is_root x ≡ true }
    requires seen { IsOpenToLook turn.old.pass x }
    ensures finds { FindsInRoot x result turn.old turn.new }
    ensures gates { KeepsGates turn.old.pass turn.new.pass }
    ensures hand { IsInHand turn.new.pass result }
{
    turn.look(words, x)
}

/// Marks the cell into which the hand points.
pub(crate) fn mark_cell(words: &Words, turn: &mut Turn, cell: Cell)
    requires one_table { turn.old.pass.table ≡ words.now }
    requires beside { IsBeside turn.old.pass }
    requires reached { HandPointsInto turn.old.pass cell }
    ensures on { GoesBeside turn.old turn.new }
    ensures gates { KeepsGates turn.old.pass turn.new.pass }
    ensures marked { is_marked (now_of turn.new.pass).words cell ≡ true }
{
    turn.mark(words, cell.page, bit(cell.index));
}

/// Holds the gate of another caller. Returns whether it wasn't held before.
pub(crate) fn hold_beside<R: Wait>(rt: &R, words: &Words, turn: &mut Turn, caller: u64) -> bool
    requires may { IsForGate IsBeside words.now turn.old.pass caller }
    ensures sets { SetsGate caller true turn.old turn.new }
    ensures was { is_held (now_of turn.old.pass).words caller ≡ not result }
{
    hold_gate(rt, words, turn, caller)
}

/// Opens the gate of another caller, which is held.
pub(crate) fn open_gate(words: &Words, turn: &mut Turn, caller: u64)
    requires may { IsForGate IsBeside words.now turn.old.pass caller }
    requires held { is_held (now_of turn.old.pass).words caller ≡ true }
    ensures { SetsGate caller false turn.old turn.new }
{
    turn.open_gate(words, caller);
}
