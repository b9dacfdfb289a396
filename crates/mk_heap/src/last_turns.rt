//! The host's last turns, when the scripts are joined.
ghost use Rattle.std.specs.Prelude.{◌≡◌, true};
ghost use Rattle.mk_alloc.specs.Below.Words.States.{has_over};
ghost use Rattle.mk_heap.specs.Ending.{BeginsAsAsked, GoesOnAlone, HasAllHome, TakesLastTurns};

use crate::heaps::Heap;
use crate::hosts::Host;
use mk_alloc::lower::cycles::Engine;
use std::sync::Wait;
use std::thread::Threads;

/// Runs a last cycle, and announces to the markers that all is over. The engine is as the cycle left it.
fn cycle_and_over<E: Engine, R: Threads + Wait + Sync>(
    rt: &R,
    heap: &Heap,
    host: &mut Host,
    engine: &mut E,
)
    requires all_home { HasAllHome heap.now host.old }
    requires made_for { E.made_for engine.old ≡ heap.now.config.pages }
    ensures host { GoesOnAlone E.ways host.old host.new }
    ensures turns { TakesLastTurns (E.ways.tells engine.new) heap.now host.new.pass }
    ensures cycles { BeginsAsAsked true host.old.pass.seen host.new.pass.seen }
    ensures over { has_over host.new.pass.seen ≡ true }
{
    host.cycle(rt, heap, engine);
    host.over(rt, heap, engine);
}

/// Announces to the markers that all is over; where one is asked for, a last cycle comes before that.
pub fn take_last_turns<E: Engine, R: Threads + Wait + Sync>(
    rt: &R,
    heap: &Heap,
    host: &mut Host,
    engine: &mut E,
    with_cycle: bool,
)
    requires all_home { HasAllHome heap.now host.old }
    requires made_for { E.made_for engine.old ≡ heap.now.config.pages }
    ensures host { GoesOnAlone E.ways host.old host.new }
    ensures turns { with_cycle ≡ true → TakesLastTurns (E.ways.tells engine.new) heap.now host.new.pass }
    ensures cycles { BeginsAsAsked with_cycle host.old.pass.seen host.new.pass.seen }
    ensures over { has_over host.new.pass.seen ≡ true }
{
    if with_cycle {
        cycle_and_over(rt, heap, host, engine);
    } else {
        host.over(rt, heap, engine);
    }
}
