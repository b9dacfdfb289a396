//! Clients: who has a turn that is free for a cycle, and the seats of all markers, may make a whole one, and nothing
//! more is asked.
ghost use Rattle.std.specs.Prelude.{◌≡◌, IfErr, IfOk};
ghost use Rattle.mk_heap.specs.Below.Cycles.EngineLaw.{IsFreeForCycle, IsAtPhase};
ghost use Rattle.mk_sweep.specs.Sweeps.{HasMarkers, MakesWholeCycle, ReleasesUnswept};

use mk_heap::lower::cycles::{Engine, Released};
use mk_heap::lower::words::{Turn, Words};
use mk_sweep::{SweepEngine, sweep_cycle};
use std::alloc::Global;
use std::sync::Wait;
use std::thread::Threads;

/// Makes a whole cycle with an engine of its own, and tells at how many heap words it looked. Where memory is refused
/// it hands the turn back as it was.
pub(crate) fn sweep_alone<R: Threads + Wait + Sync>(
    rt: &R,
    alloc: Global,
    words: &Words,
    turn: Turn,
) -> Result<(Turn, Released, u64), Turn>
    requires one_table { turn.pass.table ≡ words.now }
    requires phase { IsAtPhase turn.pass 0 }
    requires free { IsFreeForCycle turn.pass }
    requires markers { HasMarkers turn.pass.seats }
    ensures cycle { IfOk result (λ made. MakesWholeCycle turn.pass made.0.pass made.1 made.2) }
    ensures unswept { IfOk result (λ made. ReleasesUnswept turn.pass made.0.pass) }
    ensures refused { IfErr result (λ back. back ≡ turn) }
{
    let Ok(mut engine) = SweepEngine::make(alloc, words.pages()) else {
        return Err(turn);
    };
    let (turn, released) = sweep_cycle(rt, words, turn, &mut engine);
    Ok((turn, released, engine.looks()))
}
