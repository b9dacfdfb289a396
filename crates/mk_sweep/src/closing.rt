//! What the engine does in the stop: it wants the close, and sweeps until the marks may be closed.
ghost use Rattle.std.specs.Prelude.{◌≡◌, ℕ, ◌<◌, length, slice_index};
ghost use Rattle.mk_cycle.specs.EngineLaw.{ClosesMarks, IsAtPhase, IsFreeForCycle};
ghost use Rattle.mk_cycle.specs.{Below.Laws.Theorems.CellsAreClosed, Stops.{still_words, IsToldOf}};
ghost use Rattle.mk_sweep.specs.Sweeps.{IsSweeping, PageIsBlack, PointWell, SweepsOn, words_below, Sweeps};
ghost use Rattle.mk_sweep.specs.Sweeps.{SweptAreMarked};

use crate::blackening::blacken_all;
use crate::clearing::{unblack_all, undirty_all};
use crate::roots::mark_roots;
use crate::sweeping::sweep_pages;
use mk_cycle::lower::words::{Stopped, Words};
use mk_cycle::want_and_wait;
use std::sync::Wait;

/// Marks whatever the roots and the words of the allocations point into, and blackens all that is marked. Returns how
/// many heap words it looked at.
fn sweep_in_stop(words: &Words, stop: &mut Stopped) -> u64
    requires one_table { stop.old.pass.table ≡ words.now }
    requires sweeping { IsSweeping stop.old.pass }
    ensures on { SweepsOn stop.old stop.new (words_below (still_words stop.old.pass) words.now.config.pages) }
    ensures looks { result ≡ length (words_below (still_words stop.old.pass) words.now.config.pages) }
    ensures black { (p : ℕ) → p < words.now.config.pages → PageIsBlack (still_words stop.new.pass) p }
    ensures clean { (p : ℕ) → p < words.now.config.pages → slice_index (still_words stop.new.pass).dirty p ≡ 0 }
    ensures closed { CellsAreClosed words.now.config (still_words stop.new.pass) }
    ensures well { PointWell words.now.config.pages (still_words stop.new.pass)
        (words_below (still_words stop.old.pass) words.now.config.pages) }
{
    unblack_all(words, stop);
    undirty_all(words, stop);
    mark_roots(words, stop);
    let looks = sweep_pages(words, stop);
    blacken_all(words, stop);
    looks
}

/// Wants the close, waits for the markers, and sweeps. Returns how many heap words it looked at.
pub(crate) fn close_by_sweeping<R: Wait>(rt: &R, words: &Words, stop: &mut Stopped) -> u64
    requires one_table { stop.old.pass.table ≡ words.now }
    requires marking { IsAtPhase stop.old.pass 1 }
    requires free { IsFreeForCycle stop.old.pass }
    ensures law { ClosesMarks stop.old.pass stop.new.pass }
    ensures told { IsToldOf SweptAreMarked stop.new.pass }
    ensures sweeps { Sweeps stop.old.pass stop.new.pass result }
{
    want_and_wait(rt, words, stop);
    sweep_in_stop(words, stop)
}
