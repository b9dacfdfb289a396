//! What a command writes, or why it is refused.
ghost use Rattle.std.specs.Prelude.{◌≡◌, ◌≢◌, ◌≤◌, ◌⊎◌, Ok, Err, Some, false, IfOk, IfErr, OnOk};
ghost use Rattle.mk_io.specs.{Bytes.TakesAll, Memory.Rose};
ghost use Rattle.mk_script.specs.Grammar.{program_of};
ghost use Rattle.mk_outputs.specs.Commands.{AreWithin, IsWithin, MarkersAreWithin};
ghost use Rattle.mk_outputs.specs.Outputs.{IsOutputOfCommand, IsOutput, IsOutputOf, IsStatusOf, HasNoRead, status_on};
ghost use Rattle.mk_outputs.specs.{Outputs.{status_by, status_of_program, status_of_text_stop}, Laws.IsSeen};
ghost use Rattle.mk_outputs.specs.Statuses.{IsBeforeWriting, IsOfText};

use crate::commands::{Command, Options, TextCommand};
use crate::replays::replayed;
use crate::running::told;
use crate::statuses::Status;
use crate::summing::summed;
use crate::traces::played;
use mk_check::check;
use mk_io::{Source, read_all};
use mk_run::lower::heaps::{Pace, Report};
use mk_script::{Program, parse, print};
use std::alloc::Global;
use std::sync::Wait;
use std::thread::Threads;

/// All that a command writes and, with `run` and `gen`, the report on the heap that ran, which is closed.
#[derive(Drop)]
pub struct Output {
    pub bytes: Vec<u8>,
    pub report: Option<Report>,
}

impl Output {
    /// What is written where no heap ran.
    fn of_bytes(bytes: Vec<u8>) -> Output
        ensures { result.bytes ≡ bytes }
    {
        Output {
            bytes,
            report: None,
        }
    }
}

/// What a command writes, whole, or the status with which it is refused.
pub fn output_of<S: Source, P: Pace + Sync, R: Threads + Wait + Sync>(
    rt: &R,
    alloc: Global,
    command: Command,
    source: &mut S,
    pace: &P,
) -> Result<Output, Status>
    requires { IsWithin command }
    ensures ok { IfOk result (λ output. IsOutputOfCommand command (S.left source.old)
        (S.left source.new) output) }
    ensures seen { IfOk result (λ output. IsSeen command (S.left source.old) output.bytes.items) }
    ensures accepted { OnOk result (IsStatusOf command (S.left source.old) Status.Ok) }
    ensures refused { IfErr result (λ status. status ≢ Status.ReadFault
        → IsStatusOf command (S.left source.old) status) }
    ensures before_writing { IfErr result (λ status. IsBeforeWriting status) }
    ensures not_usage { IfErr result (λ status. status ≢ Status.Usage) }
    ensures read_fault { result ≡ Err Status.ReadFault → Rose (S.faults source.old) (S.faults source.new) }
    ensures sound { result ≡ Err Status.ReadFault → S.never_fails source.old ≡ false }
    ensures read_whole { result ≢ Err Status.ReadFault → S.faults source.new ≡ S.faults source.old }
    ensures unread { HasNoRead (Some command) → source.new ≡ source.old }
{
    match command {
        Command::OnText(command) => {
            let text = input_of(alloc, source)?;
            output_on(rt, alloc, command, &text, pace)
        }
        Command::Gen(request) => Ok(summed(rt, alloc, request, pace)?),
    }
}

/// All bytes up to the end of input.
fn input_of<S: Source>(alloc: Global, source: &mut S) -> Result<Vec<u8>, Status>
    ensures all { IfOk result (λ bytes. TakesAll (S.left source.old) (S.left source.new) bytes.items) }
    ensures refused { IfErr result (λ status. status ≢ Status.ReadFault
        → (command : TextCommand) → IsStatusOf (Command.OnText command) (S.left source.old) status) }
    ensures before_writing { IfErr result (λ status. IsBeforeWriting status) }
    ensures not_usage { IfErr result (λ status. status ≢ Status.Usage) }
    ensures read_fault { result ≡ Err Status.ReadFault → Rose (S.faults source.old) (S.faults source.new) }
    ensures sound { result ≡ Err Status.ReadFault → S.never_fails source.old ≡ false }
    ensures read_whole { result ≢ Err Status.ReadFault → S.faults source.new ≡ S.faults source.old }
{
    Ok(read_all(alloc, source)?)
}

/// What a command writes on a text, whole, or the status with which it refuses that.
fn output_on<P: Pace + Sync, R: Threads + Wait + Sync>(
    rt: &R,
    alloc: Global,
    command: TextCommand,
    text: &[u8],
    pace: &P,
) -> Result<Output, Status>
    requires { AreWithin command }
    ensures ok { IfOk result (λ output. IsOutput command text.now output) }
    ensures accepted { OnOk result (status_on command text.now ≡ Status.Ok) }
    ensures refused { IfErr result (λ status. (status ≡ Status.NoMemory) ⊎ (status ≡ status_on command text.now)) }
    ensures of_text { IfErr result (λ status. IsOfText status) }
{
    match command {
        TextCommand::Run(options) => run(rt, alloc, options, read(alloc, text)?, pace),
        TextCommand::Check => accept(alloc, read(alloc, text)?),
        TextCommand::Print => canonical(alloc, read(alloc, text)?),
        TextCommand::Replay => Ok(Output::of_bytes(replayed(alloc, text)?)),
        TextCommand::Trace => Ok(Output::of_bytes(played(rt, alloc, text)?)),
    }
}

/// The program of a text. The status of a text that has none is the same for each command on a program.
fn read(alloc: Global, text: &[u8]) -> Result<Program, Status>
    ensures program { IfOk result (λ program. program_of text.now ≡ Ok program) }
    ensures refused { IfErr result (λ status. (status ≡ Status.NoMemory)
        ⊎ ((command : TextCommand) → status
        ≡ status_by (status_of_program command) status_of_text_stop (program_of text.now))) }
    ensures of_text { IfErr result (λ status. IsOfText status) }
{
    Ok(parse(alloc, text)?)
}

/// The canonical text of a program.
fn canonical(alloc: Global, program: Program) -> Result<Output, Status>
    ensures ok { IfOk result (λ output. IsOutputOf TextCommand.Print program output) }
    ensures refused { IfErr result (λ status. status ≡ Status.NoMemory) }
{
    Ok(Output::of_bytes(print(alloc, &program)?))
}

/// The line `ok`, where a program is well typed.
fn accept(alloc: Global, program: Program) -> Result<Output, Status>
    ensures ok { IfOk result (λ output. IsOutputOf TextCommand.Check program output) }
    ensures accepted { OnOk result (status_of_program TextCommand.Check program ≡ Status.Ok) }
    ensures refused { IfErr result (λ status. (status ≡ Status.NoMemory)
        ⊎ (status ≡ status_of_program TextCommand.Check program)) }
    ensures of_text { IfErr result (λ status. IsOfText status) }
{
    check(alloc, program)?;
    Ok(Output::of_bytes(b"ok\n".to_vec(alloc)?))
}

/// What a program's scripts print, and after it what the options ask for.
fn run<P: Pace + Sync, R: Threads + Wait + Sync>(
    rt: &R,
    alloc: Global,
    options: Options,
    program: Program,
    pace: &P,
) -> Result<Output, Status>
    requires { MarkersAreWithin options.marking }
    ensures ok { IfOk result (λ output. IsOutputOf (TextCommand.Run options) program output) }
    ensures accepted { OnOk result (status_of_program (TextCommand.Run options) program ≡ Status.Ok) }
    ensures refused { IfErr result (λ status. (status ≡ Status.NoMemory)
        ⊎ (status ≡ status_of_program (TextCommand.Run options) program)) }
    ensures of_text { IfErr result (λ status. IsOfText status) }
{
    let checked = check(alloc, program)?;
    Ok(told(rt, alloc, &checked, options, pace)?)
}
