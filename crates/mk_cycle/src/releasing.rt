//! The stop of a cycle: the marks are closed, and what is unmarked is released.
ghost use Rattle.std.specs.Prelude.{◌≡◌, ℕ};
ghost use Rattle.mk_words.specs.States.{now_of};
ghost use Rattle.mk_cycle.specs.{Stops.ClosesAsPromised, Freeing.{held_below, released_below}};
ghost use Rattle.mk_cycle.specs.{FinishCycle.{HasReleased, HoldsFewer}, Freeing.{HasFreeCells, IsOccupied}};
ghost use Rattle.mk_cycle.specs.{EngineLaw.{IsFreeForCycle, IsAtPhase}, FinishCycle.ReleasesUnmarked};

use crate::engine::Engine;
use mk_words::{Stopped, Words};
use std::sync::Wait;
use std::thread::Threads;

/// Closes the marks, and releases what the cycle found unmarked.
pub(crate) fn release_unmarked<E: Engine, R: Threads + Wait + Sync>(
    rt: &R,
    words: &Words,
    stop: &mut Stopped,
    engine: &mut E,
)
    requires one_table { stop.old.pass.table ≡ words.now }
    requires made_for { E.made_for engine.old ≡ words.now.config.pages }
    requires phase { IsAtPhase stop.old.pass 1 }
    requires free { IsFreeForCycle stop.old.pass }
    ensures made_for { E.made_for engine.new ≡ E.made_for engine.old }
    ensures releases { ReleasesUnmarked stop.old.pass stop.new.pass }
    ensures cells { (page : ℕ) → HasFreeCells stop.new.pass page }
    ensures occupied { (page : ℕ) → IsOccupied stop.new.pass page }
    ensures told { HasReleased stop.old.pass stop.new.pass
        (released_below (now_of stop.new.pass).words words.now.config.pages) }
    ensures held { HoldsFewer stop.old.pass stop.new.pass
        (held_below (now_of stop.new.pass).words words.now.config.pages) }
    ensures promised { ClosesAsPromised E.ways.sweeps (E.ways.tells engine.new)
        (E.ways.closes engine.new) stop.old.pass stop.new.pass }
{
    engine.close_marks(rt, words, stop);
    stop.close_phase(words);
    stop.release(words);
}
