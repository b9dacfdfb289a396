//! The run of a program with a last cycle, and what that cycle keeps.
ghost use Rattle.std.specs.Prelude.{◌≡◌, ◌≤◌, IfOk, true, false};
ghost use Rattle.mk_check.specs.{Declarations.config_of, Observed.ObservedRun};
ghost use Rattle.mk_heap.specs.{Below.Cycles.BeginCycle.CyclesAreBegun, Ending.EndsWithCycle, Unswept.IsUnswept};
ghost use Rattle.mk_heap.specs.Hosts.{MarkersAreBelow, history_of};
ghost use Rattle.mk_why.specs.Chains.{AreKept};
ghost use Rattle.mk_run.specs.{Headline.printed, Running.IsRunOf, Keeping.{CyclesAreFinished, CyclesAreSaid}};

use crate::outcomes::Outcome;
use crate::running::run_and_close;
use mk_check::Checked;
use mk_heap::Pace;
use mk_heap::lower::cycles::Engine;
use mk_never::NoMemory;
use mk_why::{Kept, Why};
use std::alloc::Global;
use std::sync::Wait;
use std::thread::Threads;

/// Runs as `run_all` does, with a last cycle when the scripts are joined, and reports what that cycle keeps and why.
/// The scripts' cycles are made by `E`, and the last one by a `Why` around it: it alone notes what is kept.
pub fn run_why<E: Engine + Send, P: Pace + Sync, R: Threads + Wait + Sync>(
    rt: &R,
    alloc: Global,
    program: &Checked,
    markers: u64,
    pace: &P,
) -> Result<(Outcome, Vec<Kept>), NoMemory>
    requires markers { markers ≤ 8 }
    ensures seen { IfOk result (λ ran. ObservedRun program.now (printed ran.0)) }
    ensures runs { IfOk result (λ ran. IsRunOf E.ways.on true program.now markers ran.0) }
    ensures kept { IfOk result (λ ran. EndsWithCycle (λ c w. AreKept c w ran.1.items) (config_of program.now markers)
        (history_of ran.0.report)) }
    ensures reached { IfOk result (λ ran. E.ways.sweeps ≡ false
        → IsUnswept (config_of program.now markers) (history_of ran.0.report)) }
    ensures begun { IfOk result (λ ran.
        CyclesAreBegun E.ways.begins (config_of program.now markers) (history_of ran.0.report)) }
    ensures markers { IfOk result (λ ran. MarkersAreBelow markers (history_of ran.0.report)) }
    ensures said { IfOk result (λ ran.
        CyclesAreSaid E.ways.tells (config_of program.now markers) (history_of ran.0.report)) }
    ensures finished { IfOk result (λ ran. E.ways.on ≡ false
        → CyclesAreFinished E.ways.closes (config_of program.now markers) (history_of ran.0.report)) }
{
    let ran: (Outcome, Why<E>) = run_and_close::<E, Why<E>, P, R>(
        rt, alloc, program, markers, pace, true,
    )?;
    let (outcome, engine) = ran;
    let kept = engine.kept(alloc)?;
    Ok((outcome, kept))
}
