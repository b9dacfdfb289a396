//! The run of a program.
ghost use Rattle.std.specs.Prelude.{◌≡◌, ◌≤◌, IfOk, true, false};
ghost use Rattle.mk_check.specs.{Declarations.config_of, Observed.ObservedRun};
ghost use Rattle.mk_heap.specs.{Below.Cycles.BeginCycle.CyclesAreBegun, Ending.EndsWithCycle, Unswept.IsUnswept};
ghost use Rattle.mk_heap.specs.Hosts.{MarkersAreBelow, history_of};
ghost use Rattle.mk_run.specs.{Headline.printed, Keeping.by_seat, Running.IsRunOf};
ghost use Rattle.mk_run.specs.Keeping.{BeginsAreFinished, ClosesAreSaid, CyclesAreFinished, CyclesAreSaid};

use crate::marking::{Done, run_beside};
use crate::outcomes::Outcome;
use crate::ready::ReadyRun;
use crate::runs::Run;
use mk_check::Checked;
use mk_heap::lower::cycles::Engine;
use mk_heap::{Heap, Pace};
use mk_never::NoMemory;
use std::alloc::Global;
use std::sync::Wait;
use std::thread::Threads;

/// Runs all and closes the heap. Where a last cycle is asked for, the host runs it when the scripts are joined, before
/// it announces that all is over. The scripts' cycles are made by engines `E`, and the host's by an engine `F`. That is
/// returned: it closed the marks of the last cycle.
pub(crate) fn run_and_close<
    E: Engine + Send,
    F: Engine + Send,
    P: Pace + Sync,
    R: Threads + Wait + Sync,
>(
    rt: &R,
    alloc: Global,
    program: &Checked,
    markers: u64,
    pace: &P,
    with_cycle: bool,
) -> Result<(Outcome, F), NoMemory>
    requires markers { markers ≤ 8 }
    ensures runs { IfOk result (λ ran. IsRunOf E.ways.on with_cycle program.now markers ran.0) }
    ensures cycle { with_cycle ≡ true
        → IfOk result (λ ran. EndsWithCycle (F.ways.tells ran.1) (config_of program.now markers)
        (history_of ran.0.report)) }
    ensures reached { IfOk result (λ ran. E.ways.sweeps ≡ false → F.ways.sweeps ≡ false
        → IsUnswept (config_of program.now markers) (history_of ran.0.report)) }
    ensures begun { IfOk result (λ ran.
        CyclesAreBegun (by_seat E.ways.begins F.ways.begins)
        (config_of program.now markers) (history_of ran.0.report)) }
    ensures markers { IfOk result (λ ran. MarkersAreBelow markers (history_of ran.0.report)) }
    ensures said { IfOk result (λ ran.
        ClosesAreSaid E.ways.tells F.ways.tells (config_of program.now markers) (history_of ran.0.report)) }
    ensures finished { IfOk result (λ ran. E.ways.on ≡ false → F.ways.on ≡ false
        → BeginsAreFinished E.ways.closes F.ways.closes (config_of program.now markers) (history_of ran.0.report)) }
{
    // No thread is started before all is ready.
    let config = program.config(alloc, markers)?;
    let ready: ReadyRun<E, F> = ReadyRun::new(alloc, program, &config)?;
    let (heap, host) = Heap::new(alloc, &config)?;
    let run = Run {
        alloc,
        heap: &heap,
        program,
        markers,
        with_cycle,
    };
    let (host, done) = run_beside(rt, &run, pace, host, ready);
    let Done { texts, engine } = done;
    let report = heap.close(host);
    let outcome = Outcome {
        texts: texts?,
        report,
    };
    Ok((outcome, engine))
}

/// Runs each script and each marker on a thread of its own, joins them, and closes the heap. A script whose thread
/// can't be started runs here, and a marker whose thread can't be started does nothing. Where memory is refused to a
/// script, the others run on, and all are joined.
pub fn run_all<E: Engine + Send, P: Pace + Sync, R: Threads + Wait + Sync>(
    rt: &R,
    alloc: Global,
    program: &Checked,
    markers: u64,
    pace: &P,
) -> Result<Outcome, NoMemory>
    requires markers { markers ≤ 8 }
    ensures seen { IfOk result (λ outcome. ObservedRun program.now (printed outcome)) }
    ensures runs { IfOk result (IsRunOf E.ways.on false program.now markers) }
    ensures reached { IfOk result (λ outcome. E.ways.sweeps ≡ false
        → IsUnswept (config_of program.now markers) (history_of outcome.report)) }
    ensures begun { IfOk result (λ outcome.
        CyclesAreBegun E.ways.begins (config_of program.now markers) (history_of outcome.report)) }
    ensures markers { IfOk result (λ outcome. MarkersAreBelow markers (history_of outcome.report)) }
    ensures said { IfOk result (λ outcome.
        CyclesAreSaid E.ways.tells (config_of program.now markers) (history_of outcome.report)) }
    ensures finished { IfOk result (λ outcome. E.ways.on ≡ false
        → CyclesAreFinished E.ways.closes (config_of program.now markers) (history_of outcome.report)) }
{
    let ran: (Outcome, E) = run_and_close::<E, E, P, R>(rt, alloc, program, markers, pace, false)?;
    Ok(ran.0)
}
