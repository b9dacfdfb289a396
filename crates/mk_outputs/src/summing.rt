//! Generated programs, and the summaries of their runs.
ghost use Rattle.std.specs.Prelude.{◌≡◌, ◌≤◌, ◌++◌, length, string_bytes, IfOk, IsSomeAnd, OnOk};
ghost use Rattle.mk_outputs.specs.declared.commands.Command.TheVariants as Command;
ghost use Rattle.mk_outputs.specs.{Generated.generated_program, Commands.IsWithin};
ghost use Rattle.mk_run.specs.Below.Heaps.Hosts.{history_of};
ghost use Rattle.mk_outputs.specs.RunOutputs.{IsSummaryOfRun, total_line};
ghost use Rattle.mk_outputs.specs.RunOutputs.{line_of_text, summary_of_texts, AreFew};

use crate::commands::{Marking, Options, Request};
use crate::generating::generate;
use crate::outputs::Output;
use crate::running::outcome_of;
use mk_check::Text;
use mk_never::NoMemory;
use mk_run::lower::heaps::Pace;
use std::alloc::Global;
use std::sync::Wait;
use std::thread::Threads;

/// What `gen` writes, whole: the summary of a generated program, which runs to its end.
pub fn summed<P: Pace + Sync, R: Threads + Wait + Sync>(
    rt: &R,
    alloc: Global,
    request: Request,
    pace: &P,
) -> Result<Output, NoMemory>
    requires { IsWithin (Command.Gen request) }
    ensures { IfOk result (λ output. IsSomeAnd output.report
        (λ report. IsSummaryOfRun (generated_program request.start request.count) request.markers (history_of report)
        output.bytes.items)) }
{
    let program = generate(alloc, request.start, request.count)?;
    let options = Options {
        marking: Marking::with_markers(request.markers),
        why: false,
        report: false,
    };
    let (outcome, _) = outcome_of(rt, alloc, &program, options, pace)?;
    let lines = summary_of(alloc, &outcome.texts)?;
    Ok(Output {
        bytes: lines.into_bytes(),
        report: Some(outcome.report),
    })
}

/// The summary of scripts that are named `s0`, `s1` and so on.
fn summary_of(alloc: Global, texts: &[Text]) -> Result<String, NoMemory>
    requires scripts { length texts.now ≤ 4 }
    requires calls { AreFew texts.now }
    ensures { IfOk result (λ lines. string_bytes lines ≡ summary_of_texts texts.now) }
{
    let mut lines = String::new(alloc);
    let mut number = 0;
    let mut total = 0;
    for text in texts {
        push_line(&mut lines, number, text)?;
        number += 1;
        total += text.ops;
    }
    push_total(&mut lines, total)?;
    Ok(lines)
}

/// Appends the line of a script.
fn push_line(lines: &mut String, number: u64, text: &Text) -> Result<(), NoMemory>
    ensures { OnOk result (string_bytes lines.new ≡ string_bytes lines.old ++ line_of_text number text.now) }
{
    let ops = text.ops;
    let refused = text.refused;
    Ok(writeln!(lines, "script s{number} ops {ops} refused {refused}")?)
}

/// Appends the line of all scripts.
fn push_total(lines: &mut String, ops: u64) -> Result<(), NoMemory>
    ensures { OnOk result (string_bytes lines.new ≡ string_bytes lines.old ++ total_line ops) }
{
    Ok(writeln!(lines, "total {ops}")?)
}
