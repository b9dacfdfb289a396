//! Scripts with markers beside them, from their first calls to the host's word that all is over.
ghost use Rattle.std.specs.{Prelude.{◌≡◌, true}, Thread.IsSync};
ghost use Rattle.mk_heap.specs.{Hosts.{HasMade, AllAreJoined}, Ending.TakesLastTurns};
ghost use Rattle.mk_run.specs.{Keeping.RunKeeps, Joining.IsOver, Running.IsReadyRun};
ghost use denote.Param.Send.{IsSend};

use crate::joining::{Joined, run_from};
use crate::ready::ReadyRun;
use crate::runs::Run;
use mk_check::Text;
use mk_heap::lower::cycles::Engine;
use mk_heap::{Host, Pace, beside_markers, take_last_turns};
use mk_never::NoMemory;
use std::sync::Wait;
use std::thread::Threads;

/// The texts of scripts that are joined, and the engine of the host's own cycles.
#[derive(Drop)]
pub(crate) struct Done<F: Engine> {
    pub(crate) texts: Result<Vec<Text>, NoMemory>,
    pub(crate) engine: F,
}

/// Runs all scripts and joins them, runs a last cycle where one is asked for, and announces to the markers that all is
/// over.
fn run_scripts<E: Engine + Send, F: Engine + Send, P: Pace + Sync, R: Threads + Wait + Sync>(
    rt: &R,
    run: &Run,
    pace: &P,
    host: Host,
    ready: ReadyRun<E, F>,
) -> (Host, Done<F>)
    requires shared { IsSync R.row × IsSync P.row × IsSend E.row }
    requires host { HasMade run.now.heap.now run.now.markers 0 host }
    requires ready { IsReadyRun E.made_for F.made_for run.now.program.now run.now.heap.now.config ready }
    ensures over { IsOver E.ways.on run.now.with_cycle run.now.program.now run.now.heap.now run.now.markers result.0
        result.1 }
    ensures turns { run.now.with_cycle ≡ true
        → TakesLastTurns (F.ways.tells result.1.engine) run.now.heap.now result.0.pass }
    ensures keep { RunKeeps E.ways F.ways
        run.now.program.now run.now.heap.now.config result.0.pass.seen }
{
    let ReadyRun {
        scripts,
        host: mut engine,
    } = ready;
    let Joined { mut host, texts } = run_from(rt, run, pace, 0, host, scripts);
    take_last_turns(rt, run.heap, &mut host, &mut engine, run.with_cycle);
    (host, Done { texts, engine })
}

/// Runs all scripts and markers, each on a thread of its own, and joins them.
pub(crate) fn run_beside<
    E: Engine + Send,
    F: Engine + Send,
    P: Pace + Sync,
    R: Threads + Wait + Sync,
>(rt: &R, run: &Run, pace: &P, host: Host, ready: ReadyRun<E, F>) -> (Host, Done<F>)
    requires shared { IsSync R.row × IsSync P.row × IsSend E.row }
    requires host { HasMade run.now.heap.now 0 0 host }
    requires ready { IsReadyRun E.made_for F.made_for run.now.program.now run.now.heap.now.config ready }
    ensures over { IsOver E.ways.on run.now.with_cycle run.now.program.now run.now.heap.now run.now.markers result.0
        result.1 }
    ensures joined { AllAreJoined result.0 }
    ensures turns { run.now.with_cycle ≡ true
        → TakesLastTurns (F.ways.tells result.1.engine) run.now.heap.now result.0.pass }
    ensures keep { RunKeeps E.ways F.ways
        run.now.program.now run.now.heap.now.config result.0.pass.seen }
{
    let heap = run.heap;
    let markers = run.markers;
    beside_markers(
        rt,
        heap,
        pace,
        markers,
        0,
        host,
        move |host: Host| -> (Host, Done<F>)
            requires shared { IsSync R.row × IsSync P.row × IsSend E.row }
            requires host { HasMade run.now.heap.now run.now.markers 0 host }
            requires ready { IsReadyRun E.made_for F.made_for run.now.program.now run.now.heap.now.config ready }
            ensures over { IsOver E.ways.on run.entry.now.with_cycle run.entry.now.program.now run.entry.now.heap.now
                run.entry.now.markers result.0 result.1 }
            ensures turns { run.entry.now.with_cycle ≡ true
                → TakesLastTurns (F.ways.tells result.1.engine) run.entry.now.heap.now result.0.pass }
            ensures keep { RunKeeps E.ways F.ways
                run.entry.now.program.now run.entry.now.heap.now.config result.0.pass.seen }
        { run_scripts(rt, run, pace, host, ready) },
    )
}
