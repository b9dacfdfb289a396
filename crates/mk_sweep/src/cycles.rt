//! Whole cycles.
ghost use Rattle.std.specs.Prelude.{◌≡◌};
ghost use Rattle.mk_cycle.specs.EngineLaw.{IsFreeForCycle, IsAtPhase};
ghost use Rattle.mk_sweep.specs.Sweeps.{HasMarkers, MakesWholeCycle, ReleasesUnswept};

use crate::sweep_engine::SweepEngine;
use mk_cycle::lower::words::{Turn, Words};
use mk_cycle::{Engine, Released, begin_cycle, finish_cycle};
use std::sync::Wait;
use std::thread::Threads;

/// Begins a cycle, and finishes it directly after that. The turn's pass has the seats of all markers, so nothing is
/// marked but by the sweep.
pub fn sweep_cycle<R: Threads + Wait + Sync>(
    rt: &R,
    words: &Words,
    turn: Turn,
    engine: &mut SweepEngine,
) -> (Turn, Released)
    requires one_table { turn.pass.table ≡ words.now }
    requires made_for { ⟦<SweepEngine as Engine>⟧.made_for engine.old ≡ words.now.config.pages }
    requires phase { IsAtPhase turn.pass 0 }
    requires free { IsFreeForCycle turn.pass }
    requires markers { HasMarkers turn.pass.seats }
    ensures made_for { ⟦<SweepEngine as Engine>⟧.made_for engine.new
        ≡ ⟦<SweepEngine as Engine>⟧.made_for engine.old }
    ensures cycle { MakesWholeCycle turn.pass result.0.pass result.1 engine.new.looks }
    ensures unswept { ReleasesUnswept turn.pass result.0.pass }
{
    let mut turn = turn;
    begin_cycle(rt, words, &mut turn, engine);
    let (turn, released) = finish_cycle(rt, words, turn, engine);
    (turn, released)
}
