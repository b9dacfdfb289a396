//! What `trace` writes.
ghost use Rattle.std.specs.Prelude.{◌≡◌, ◌⊎◌, IfOk, IfErr, OnOk};
ghost use Rattle.mk_outputs.specs.{Outputs.{IsOutputOnTrace, TellsOfPlay, status_on}, Statuses.IsOfText};

use crate::commands::TextCommand;
use crate::statuses::Status;
use mk_never::NoMemory;
use mk_trace::{Trace, parse_trace, play, print_peaks};
use std::alloc::Global;
use std::sync::Wait;
use std::thread::Threads;

/// What `trace` writes on a text, whole.
pub fn played<R: Threads + Wait + Sync>(
    rt: &R,
    alloc: Global,
    text: &[u8],
) -> Result<Vec<u8>, Status>
    ensures ok { IfOk result (λ output. IsOutputOnTrace text.now output.items) }
    ensures accepted { OnOk result (status_on TextCommand.Trace text.now ≡ Status.Ok) }
    ensures refused { IfErr result (λ status. (status ≡ Status.NoMemory)
        ⊎ (status ≡ status_on TextCommand.Trace text.now)) }
    ensures of_text { IfErr result (λ status. IsOfText status) }
{
    let trace = parse_trace(alloc, text)?;
    Ok(told(rt, alloc, &trace)?)
}

/// The lines of the peaks of a trace, which is played.
fn told<R: Threads + Wait + Sync>(rt: &R, alloc: Global, trace: &Trace) -> Result<Vec<u8>, NoMemory>
    ensures { IfOk result (λ lines. TellsOfPlay trace.now lines.items) }
{
    let peaks = play(rt, alloc, trace)?;
    print_peaks(alloc, &peaks)
}
