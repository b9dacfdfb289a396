//! Marks from the roots: the registers and the globals.
ghost use Rattle.std.specs.Prelude.{◌≡◌, ℕ, ◌<◌, [], true};
ghost use Rattle.mk_core.specs.{Cells.points_well, Conditions.is_word, Words.named_word};
ghost use Rattle.mk_cycle.specs.Grays.{GlobalIsWell, RegistersAreWell, MarksMore, RootsPointWell};
ghost use Rattle.mk_cycle.specs.Stops.{is_root, still_words};
ghost use Rattle.mk_sweep.specs.Sweeps.{IsSweeping, SweepsOn};

use crate::stepping::look_at_root;
use crate::values::mark_value;
use mk_core::Word;
use mk_cycle::lower::words::{Stopped, Words};
use mk_cycle::{GLOBALS, REGISTERS};

/// Looks at a root, and marks what its value points into.
fn mark_root(words: &Words, stop: &mut Stopped, x: Word)
    requires one_table { stop.old.pass.table ≡ words.now }
    requires sweeping { IsSweeping stop.old.pass }
    requires word { is_word words.now.config x ≡ true }
    requires root { is_root x ≡ true }
    ensures on { SweepsOn stop.old stop.new [] }
    ensures more { MarksMore (still_words stop.old.pass) (still_words stop.new.pass) }
    ensures well { points_well words.now.config.pages (still_words stop.new.pass)
        (named_word (still_words stop.old.pass) x) ≡ true }
{
    let value = look_at_root(words, stop, x);
    mark_value(words, stop, value);
}

/// Marks what a caller's registers point into.
fn mark_registers_of(words: &Words, stop: &mut Stopped, caller: u64)
    requires one_table { stop.old.pass.table ≡ words.now }
    requires sweeping { IsSweeping stop.old.pass }
    requires caller { caller < words.now.config.callers }
    ensures on { SweepsOn stop.old stop.new [] }
    ensures more { MarksMore (still_words stop.old.pass) (still_words stop.new.pass) }
    ensures well { RegistersAreWell words.now.config stop.old.pass stop.new.pass caller }
{
    for register in 0..REGISTERS {
        mark_root(words, stop, Word::Reg { caller, register });
    }
}

/// Marks what the registers of all callers point into.
fn mark_registers(words: &Words, stop: &mut Stopped)
    requires one_table { stop.old.pass.table ≡ words.now }
    requires sweeping { IsSweeping stop.old.pass }
    ensures on { SweepsOn stop.old stop.new [] }
    ensures more { MarksMore (still_words stop.old.pass) (still_words stop.new.pass) }
    ensures well { (k : ℕ) → k < words.now.config.callers
        → RegistersAreWell words.now.config stop.old.pass stop.new.pass k }
{
    for caller in 0..words.callers() {
        mark_registers_of(words, stop, caller);
    }
}

/// Marks what the globals point into.
fn mark_globals(words: &Words, stop: &mut Stopped)
    requires one_table { stop.old.pass.table ≡ words.now }
    requires sweeping { IsSweeping stop.old.pass }
    ensures on { SweepsOn stop.old stop.new [] }
    ensures more { MarksMore (still_words stop.old.pass) (still_words stop.new.pass) }
    ensures well { (g : ℕ) → g < 64 → GlobalIsWell words.now.config stop.old.pass stop.new.pass g }
{
    for global in 0..GLOBALS {
        mark_root(words, stop, Word::Global(global));
    }
}

/// Looks once at each register and at each global, and marks what it points into.
pub(crate) fn mark_roots(words: &Words, stop: &mut Stopped)
    requires one_table { stop.old.pass.table ≡ words.now }
    requires sweeping { IsSweeping stop.old.pass }
    ensures on { SweepsOn stop.old stop.new [] }
    ensures more { MarksMore (still_words stop.old.pass) (still_words stop.new.pass) }
    ensures roots { RootsPointWell words.now.config.pages (still_words stop.new.pass) }
{
    mark_registers(words, stop);
    mark_globals(words, stop);
}
