//! Clients: who has a turn that is free for a cycle may begin one with an engine that traces, and nothing more is
//! asked.
ghost use Rattle.std.specs.Prelude.{◌≡◌, OnOk, true};
ghost use Rattle.mk_heap.specs.Below.Cycles.BeginCycle.{BeginsCycle, EachIsBegun, IsBegun};
ghost use Rattle.mk_heap.specs.Below.Cycles.{EngineLaw.{IsFreeForCycle, IsAtPhase}, Beside.MarksRoots};

use mk_heap::lower::cycles::{Engine, MostlyEngine, StopEngine, begin_cycle};
use mk_heap::lower::words::{Stopped, Turn, Words};
use mk_never::NoMemory;
use std::alloc::Global;
use std::sync::Wait;
use std::thread::Threads;

/// Begins a cycle whose marks are made beside the callers. Directly after its `begin` the roots are marked.
pub(crate) fn begin_beside<R: Threads + Wait + Sync>(
    rt: &R,
    alloc: Global,
    words: &Words,
    turn: &mut Turn,
) -> Result<MostlyEngine, NoMemory>
    requires one_table { turn.old.pass.table ≡ words.now }
    requires phase { IsAtPhase turn.old.pass 0 }
    requires free { IsFreeForCycle turn.old.pass }
    ensures begins { OnOk result (BeginsCycle turn.old.pass turn.new.pass) }
    ensures begun { OnOk result (EachIsBegun true MarksRoots turn.old.pass turn.new.pass) }
{
    let mut engine = MostlyEngine::make(alloc, words.pages())?;
    begin_cycle(rt, words, turn, &mut engine);
    Ok(engine)
}

/// Marks from the roots, in a cycle that is on.
pub(crate) fn mark_beside<R: Threads + Wait + Sync>(
    rt: &R,
    words: &Words,
    turn: &mut Turn,
    engine: &mut MostlyEngine,
)
    requires one_table { turn.old.pass.table ≡ words.now }
    requires phase { IsAtPhase turn.old.pass 1 }
    requires free { IsFreeForCycle turn.old.pass }
    ensures begun { IsBegun MarksRoots turn.old.pass turn.new.pass }
{
    engine.begin(rt, words, turn);
}

/// Makes the marks of a cycle in the stop, and closes them.
pub(crate) fn close_in_stop<R: Threads + Wait + Sync>(
    rt: &R,
    words: &Words,
    stop: &mut Stopped,
    engine: &mut StopEngine,
)
    requires one_table { stop.old.pass.table ≡ words.now }
    requires phase { IsAtPhase stop.old.pass 1 }
    requires free { IsFreeForCycle stop.old.pass }
{
    engine.close_marks(rt, words, stop);
    stop.close_phase(words);
}

/// An engine may be moved to another thread.
fn moved<T: Send>(value: T) -> T {
    value
}

pub(crate) fn move_engines(beside: MostlyEngine, stop: StopEngine) -> (MostlyEngine, StopEngine) {
    (moved(beside), moved(stop))
}
