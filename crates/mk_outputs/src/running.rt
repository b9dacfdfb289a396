//! The run of a program on the heap.
ghost use Rattle.std.specs.Prelude.{◌≡◌, ◌≤◌, ◌++◌, [], IfOk, OnOk, if◌then◌else◌, true, false};
ghost use Rattle.mk_check.specs.Declarations.{config_of};
ghost use Rattle.mk_run.specs.Below.Cycles.BeginCycle.{CyclesAreBegun, CyclesHoldGatesFirst};
ghost use Rattle.mk_run.specs.Below.Cycles.Beside.{CyclesMarkRootsFirst};
ghost use Rattle.mk_run.specs.{Below.Heaps.Hosts.{MarkersAreBelow, history_of}, Headline.cycles_go_on};
ghost use Rattle.mk_run.specs.{Running.IsRunOf, Below.Heaps.Unswept.IsUnswept};
ghost use Rattle.mk_run.specs.Keeping.{CyclesAreFinished, CyclesAreSaid, CyclesSweep};
ghost use Rattle.mk_outputs.specs.declared.commands.TextCommand.TheVariants as TextCommand;
ghost use Rattle.mk_outputs.specs.Commands.{MarkersAreWithin, is_sweep, markers_beside};
ghost use Rattle.mk_outputs.specs.{Outputs.IsOutputOf, RunOutputs.lines_of_report};
ghost use Rattle.mk_outputs.specs.RunOutputs.{AreEntries};

use crate::commands::{Marking, Options};
use crate::kept_text::push_kept;
use crate::outputs::Output;
use crate::report_text::push_report;
use crate::texts::joined;
use mk_check::Checked;
use mk_never::NoMemory;
use mk_run::lower::chains::Kept;
use mk_run::lower::cycles::{Engine, MostlyEngine, StopEngine};
use mk_run::lower::heaps::{Pace, Report};
use mk_run::lower::sweeps::SweepEngine;
use mk_run::{Outcome, run_all, run_why};
use std::alloc::Global;
use std::sync::Wait;
use std::thread::Threads;

/// The outcome of a run and, where it is asked why objects are kept, what its last cycle kept.
pub type Ran = (Outcome, Vec<Kept>);

/// The run of a program's scripts by an engine, each on a thread of its own. Where it is asked why objects are kept,
/// the host runs one more cycle after them.
fn run_by<E: Engine + Send, P: Pace + Sync, R: Threads + Wait + Sync>(
    rt: &R,
    alloc: Global,
    program: &Checked,
    markers: u64,
    why: bool,
    pace: &P,
) -> Result<Ran, NoMemory>
    requires { markers ≤ 8 }
    ensures runs { IfOk result (λ ran. IsRunOf E.ways.on why program.now markers ran.0) }
    ensures begun { IfOk result (λ ran.
        CyclesAreBegun E.ways.begins (config_of program.now markers) (history_of ran.0.report)) }
    ensures markers { IfOk result (λ ran. MarkersAreBelow markers (history_of ran.0.report)) }
    ensures reached { IfOk result (λ ran. E.ways.sweeps ≡ false
        → IsUnswept (config_of program.now markers) (history_of ran.0.report)) }
    ensures said { IfOk result (λ ran.
        CyclesAreSaid E.ways.tells (config_of program.now markers) (history_of ran.0.report)) }
    ensures finished { IfOk result (λ ran. E.ways.on ≡ false
        → CyclesAreFinished E.ways.closes (config_of program.now markers) (history_of ran.0.report)) }
    ensures kept { IfOk result (λ ran. AreEntries why ran.1.items (config_of program.now markers)
        (history_of ran.0.report)) }
{
    if why {
        run_why::<E, P, R>(rt, alloc, program, markers, pace)
    } else {
        let outcome = run_all::<E, P, R>(rt, alloc, program, markers, pace)?;
        Ok((outcome, Vec::new(alloc)))
    }
}

/// The run of a program's scripts, whose cycles mark as the options say.
pub fn outcome_of<P: Pace + Sync, R: Threads + Wait + Sync>(
    rt: &R,
    alloc: Global,
    program: &Checked,
    options: Options,
    pace: &P,
) -> Result<Ran, NoMemory>
    requires { MarkersAreWithin options.marking }
    ensures runs { IfOk result (λ ran. IsRunOf (cycles_go_on (markers_beside options.marking)) options.why program.now
        (markers_beside options.marking) ran.0) }
    ensures begun { IfOk result (λ ran. cycles_go_on (markers_beside options.marking) ≡ true
        → CyclesMarkRootsFirst (config_of program.now (markers_beside options.marking)) (history_of ran.0.report)) }
    ensures stops { IfOk result (λ ran. cycles_go_on (markers_beside options.marking) ≡ false
        → CyclesHoldGatesFirst (config_of program.now (markers_beside options.marking)) (history_of ran.0.report)) }
    ensures markers { IfOk result (λ ran.
        MarkersAreBelow (markers_beside options.marking) (history_of ran.0.report)) }
    ensures reached { IfOk result (λ ran. is_sweep options.marking ≡ false
        → IsUnswept (config_of program.now (markers_beside options.marking)) (history_of ran.0.report)) }
    ensures swept { IfOk result (λ ran. is_sweep options.marking ≡ true
        → CyclesSweep (config_of program.now (markers_beside options.marking)) (history_of ran.0.report)) }
    ensures kept { IfOk result (λ ran. AreEntries options.why ran.1.items
        (config_of program.now (markers_beside options.marking)) (history_of ran.0.report)) }
{
    let why = options.why;
    match options.marking {
        Marking::Stop => run_by::<StopEngine, P, R>(rt, alloc, program, 0, why, pace),
        Marking::Beside(markers) => {
            run_by::<MostlyEngine, P, R>(rt, alloc, program, markers, why, pace)
        }
        Marking::Sweep => run_by::<SweepEngine, P, R>(rt, alloc, program, 0, why, pace),
    }
}

/// Appends the numbers of a report, where they are asked for.
fn push_asked(text: &mut Vec<u8>, options: Options, report: &Report) -> Result<(), NoMemory>
    ensures { OnOk result (text.new.items
        ≡ text.old.items ++ (if options.report then lines_of_report report.now else [])) }
{
    if options.report {
        push_report(text, report)
    } else {
        Ok(())
    }
}

/// All that a run of a program writes: what its scripts print, each run to its end, and after it, each where it is
/// asked for, the counts of the heap at the end, and what the last cycle kept and why.
pub fn told<P: Pace + Sync, R: Threads + Wait + Sync>(
    rt: &R,
    alloc: Global,
    program: &Checked,
    options: Options,
    pace: &P,
) -> Result<Output, NoMemory>
    requires { MarkersAreWithin options.marking }
    ensures { IfOk result (λ output. IsOutputOf (TextCommand.Run options) program.now output) }
{
    let (outcome, kept) = outcome_of(rt, alloc, program, options, pace)?;
    let Outcome { texts, report } = outcome;
    let mut bytes = joined(alloc, &texts)?;
    push_asked(&mut bytes, options, &report)?;
    push_kept(&mut bytes, program.program(), &kept)?;
    Ok(Output {
        bytes,
        report: Some(report),
    })
}
