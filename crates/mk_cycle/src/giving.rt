//! The stop of a cycle, and what comes after it up to the `end`.
ghost use Rattle.std.specs.Prelude.{◌≡◌, true};
ghost use Rattle.mk_core.specs.Moments.{none_is_held};
ghost use Rattle.mk_words.specs.Steps.{Does};
ghost use Rattle.mk_words.specs.{Steps.is_open, States.now_of};
ghost use Rattle.mk_cycle.specs.{Stops.ClosesAsPromised, EngineLaw.{IsFreeForCycle, IsAtPhase}};
ghost use Rattle.mk_cycle.specs.{FinishCycle.{HasReleased, HoldsFewer}, Freeing.GivesNothingBack};
ghost use Rattle.mk_cycle.specs.Freeing.{GivesAllBack};

use crate::engine::Engine;
use crate::gates::hold_gates;
use crate::releasing::release_unmarked;
use crate::settling::{Settled, settle_pages};
use mk_words::{Stopped, Turn, Words};
use std::sync::Wait;
use std::thread::Threads;

/// Opens the gates of all other callers. Nothing is given back yet.
fn open_gates(words: &Words, stop: Stopped) -> Turn
    requires one_table { stop.pass.table ≡ words.now }
    requires free { IsFreeForCycle stop.pass }
    requires phase { IsAtPhase stop.pass 4 }
    ensures opens { Does is_open stop.pass result.pass }
    ensures frees { GivesNothingBack stop.pass result.pass }
    ensures gates { none_is_held stop.pass.table.config.callers (now_of result.pass).words ≡ true }
{
    stop.holds_gates();
    stop.open_all(words)
}

/// Stops all other callers, closes the marks, releases what is unmarked, opens the gates, and gives back what was
/// released. Returns the counts of it.
pub(crate) fn give_all_back<E: Engine, R: Threads + Wait + Sync>(
    rt: &R,
    words: &Words,
    mut turn: Turn,
    engine: &mut E,
) -> (Turn, Settled)
    requires one_table { turn.pass.table ≡ words.now }
    requires made_for { E.made_for engine.old ≡ words.now.config.pages }
    requires phase { IsAtPhase turn.pass 1 }
    requires free { IsFreeForCycle turn.pass }
    ensures made_for { E.made_for engine.new ≡ E.made_for engine.old }
    ensures gives { GivesAllBack turn.pass result.0.pass }
    ensures told { HasReleased turn.pass result.0.pass result.1.released }
    ensures held { HoldsFewer turn.pass result.0.pass result.1.held }
    ensures promised { ClosesAsPromised E.ways.sweeps (E.ways.tells engine.new)
        (E.ways.closes engine.new) turn.pass result.0.pass }
{
    hold_gates(rt, words, &mut turn);
    let mut stop = turn.stopped();
    release_unmarked(rt, words, &mut stop, engine);
    let mut turn = open_gates(words, stop);
    let settled = settle_pages(&mut turn, words);
    (turn, settled)
}
