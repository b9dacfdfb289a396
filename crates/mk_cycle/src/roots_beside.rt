//! Marks from the roots beside the callers: their registers, and the globals. What a root points into is marked before
//! the next one is looked at.
ghost use Rattle.std.specs.Prelude.{◌≡◌, ◌<◌, ℕ, true};
ghost use Rattle.mk_core.specs.Conditions.{is_word};
ghost use Rattle.mk_cycle.specs.{BeginCycle.IsBegun, Stops.{IsHeldOrOwn, is_root, IsForGate}, TurnKeeps.KeepsGates};
ghost use Rattle.mk_cycle.specs.Beside.{GoesBeside, IsBeside, IsOpenToLook, LooksAt, MarksRoots};
ghost use Rattle.mk_core.specs.declared.events.Word.TheVariants as word;

use crate::roots::{GLOBALS, REGISTERS};
use crate::steps_beside::{hold_beside, look_at_root, open_gate};
use crate::values_beside::mark_value;
use mk_core::Word;
use mk_words::{Turn, Words};
use std::sync::Wait;

/// Looks at a root, and marks what its value points into.
fn mark_root(words: &Words, turn: &mut Turn, x: Word)
    requires one_table { turn.old.pass.table ≡ words.now }
    requires beside { IsBeside turn.old.pass }
    requires in_range { is_word words.now.config x ≡ true }
    requires root { is_root x ≡ true }
    requires seen { IsOpenToLook turn.old.pass x }
    ensures on { GoesBeside turn.old turn.new }
    ensures gates { KeepsGates turn.old.pass turn.new.pass }
    ensures looked { LooksAt x turn.old.pass turn.new.pass }
{
    let value = look_at_root(words, turn, x);
    mark_value(words, turn, value);
}

/// Marks what a caller's registers point into, while its gate is held, or as the caller itself.
fn mark_registers_of(words: &Words, turn: &mut Turn, caller: u64)
    requires one_table { turn.old.pass.table ≡ words.now }
    requires beside { IsBeside turn.old.pass }
    requires within { caller < words.now.config.callers }
    requires held { IsHeldOrOwn turn.old.pass caller }
    ensures on { GoesBeside turn.old turn.new }
    ensures gates { KeepsGates turn.old.pass turn.new.pass }
    ensures looked { (r : ℕ) → r < 8 → LooksAt (word.Reg caller r) turn.old.pass turn.new.pass }
{
    for register in 0..REGISTERS {
        mark_root(words, turn, Word::Reg { caller, register });
    }
}

/// Marks what another caller's registers point into. Its gate is held meanwhile, and held after it only if it was
/// before.
fn mark_registers_held<R: Wait>(rt: &R, words: &Words, turn: &mut Turn, caller: u64)
    requires may { IsForGate IsBeside words.now turn.old.pass caller }
    ensures on { GoesBeside turn.old turn.new }
    ensures gates { KeepsGates turn.old.pass turn.new.pass }
    ensures looked { (r : ℕ) → r < 8 → LooksAt (word.Reg caller r) turn.old.pass turn.new.pass }
{
    let was_open = hold_beside(rt, words, turn, caller);
    mark_registers_of(words, turn, caller);
    if was_open {
        open_gate(words, turn, caller);
    }
}

/// Marks what a caller's registers point into.
fn mark_caller<R: Wait>(rt: &R, words: &Words, turn: &mut Turn, caller: u64)
    requires one_table { turn.old.pass.table ≡ words.now }
    requires beside { IsBeside turn.old.pass }
    requires within { caller < words.now.config.callers }
    ensures on { GoesBeside turn.old turn.new }
    ensures gates { KeepsGates turn.old.pass turn.new.pass }
    ensures looked { (r : ℕ) → r < 8 → LooksAt (word.Reg caller r) turn.old.pass turn.new.pass }
{
    if turn.seat().is_caller(caller) {
        mark_registers_of(words, turn, caller);
    } else {
        mark_registers_held(rt, words, turn, caller);
    }
}

/// Marks what the registers of all callers point into.
fn mark_registers<R: Wait>(rt: &R, words: &Words, turn: &mut Turn)
    requires one_table { turn.old.pass.table ≡ words.now }
    requires beside { IsBeside turn.old.pass }
    ensures on { GoesBeside turn.old turn.new }
    ensures gates { KeepsGates turn.old.pass turn.new.pass }
    ensures looked { (k : ℕ) → k < words.now.config.callers
        → (r : ℕ) → r < 8 → LooksAt (word.Reg k r) turn.old.pass turn.new.pass }
{
    for caller in 0..words.callers() {
        mark_caller(rt, words, turn, caller);
    }
}

/// Marks what the globals point into.
fn mark_globals(words: &Words, turn: &mut Turn)
    requires one_table { turn.old.pass.table ≡ words.now }
    requires beside { IsBeside turn.old.pass }
    ensures on { GoesBeside turn.old turn.new }
    ensures gates { KeepsGates turn.old.pass turn.new.pass }
    ensures looked { (g : ℕ) → g < 64 → LooksAt (word.Global g) turn.old.pass turn.new.pass }
{
    for global in 0..GLOBALS {
        mark_root(words, turn, Word::Global(global));
    }
}

/// Marks what the roots point into.
pub(crate) fn mark_roots<R: Wait>(rt: &R, words: &Words, turn: &mut Turn)
    requires one_table { turn.old.pass.table ≡ words.now }
    requires beside { IsBeside turn.old.pass }
    ensures on { GoesBeside turn.old turn.new }
    ensures gates { KeepsGates turn.old.pass turn.new.pass }
    ensures roots { IsBegun MarksRoots turn.old.pass turn.new.pass }
{
    mark_registers(rt, words, turn);
    mark_globals(words, turn);
}
