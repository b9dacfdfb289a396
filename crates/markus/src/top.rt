//! All that the program does.
ghost use Rattle.std.specs.Prelude.{◌≡◌, ◌≢◌, ◌⊎◌, map, string_bytes, length, false, None, IsSomeAnd};
ghost use Rattle.mk_io.specs.{Bytes.{Appends, AppendsPart}, Memory.Rose};
ghost use Rattle.mk_outputs.specs.Commands.{command_of};
ghost use Rattle.mk_outputs.specs.{Outputs.{HasAnswered, HasNoRead, IsStatusOn}, Laws.HasSeen};
ghost use Rattle.mk_outputs.specs.Statuses.{IsBeforeWriting, IsRefusal};

use mk_io::{Failed, Sink, Source, write_all};
use mk_outputs::lower::heaps::Pace;
use mk_outputs::{Status, command_in, output_of};
use std::alloc::Global;
use std::sync::Wait;
use std::thread::Threads;

/// Does all that the program does. With the word `run`, `check`, `print`, `replay` or `trace` it reads a text from the
/// source, and writes to the sink what its scripts print, the line `ok`, its canonical text, what its scripts have
/// printed when the schedule after it ends, or the peaks of its trace. After what the scripts print `run --report`
/// gives the counts of the heap at its end, and then `run --why` which freed objects are kept, and by which pointers.
/// With `gen START COUNT` it reads nothing, runs the program that is generated, and sums up. The whole output is made
/// before the first write.
///
/// Each script runs on a thread of its own, and the pace is called before and after each of its memory instructions. A
/// trace is played on the calling thread.
///
/// Where the source doesn't show its bytes to proofs, or the sink what it took, the clauses on these say nothing, as
/// with standard input and output.
pub fn markus<S: Source, K: Sink, P: Pace + Sync, R: Threads + Wait + Sync>(
    rt: &R,
    alloc: Global,
    words: &[String],
    source: &mut S,
    sink: &mut K,
    pace: &P,
) -> Status
    // With `run`, what is written begins with what the program's scripts print: in one order of all their calls each of
    // them, told the replies of a heap that never reuses storage to its own, asks for just these, and ends. `gen` sums
    // up such a run.
    ensures seen { result ≡ Status.Ok →
        HasSeen (map (λ word. string_bytes word) words.now) (S.left source.old)
        (Appends (K.taken sink.old) (K.taken sink.new)) }

    // What the command writes was written: on the text that was read to its end, which it accepts, or, with `gen`, of
    // the program that it generates. With `run` and `gen` the replies of the program's scripts stand in one history of
    // the heap that ran, each script's operations there once and in order. With `run --report` the counts are those of
    // this history at its end, with `run --why` the entries are those of the cycle with which it ends, and with `trace`
    // the peaks are those of the history that playing makes.
    ensures ok { result ≡ Status.Ok →
        HasAnswered (map (λ word. string_bytes word) words.now) (S.left source.old) (S.left source.new)
        (Appends (K.taken sink.old) (K.taken sink.new)) }
    ensures part { result ≡ Status.WriteFault →
        HasAnswered (map (λ word. string_bytes word) words.now) (S.left source.old) (S.left source.new)
        (AppendsPart (K.taken sink.old) (K.taken sink.new)) }

    // When each refusal comes.
    ensures usage { result ≡ Status.Usage → command_of (map (λ word. string_bytes word) words.now) ≡ None }
    ensures form { command_of (map (λ word. string_bytes word) words.now) ≡ None
        → (result ≡ Status.NoMemory) ⊎ (result ≡ Status.Usage) }
    ensures read_fault { result ≡ Status.ReadFault → Rose (S.faults source.old) (S.faults source.new) }
    ensures refused { IsRefusal result
        → IsStatusOn (command_of (map (λ word. string_bytes word) words.now)) (S.left source.old) result }
    ensures write_fault { result ≡ Status.WriteFault → Rose (K.faults sink.old) (K.faults sink.new) }
    ensures read_whole { result ≢ Status.ReadFault → S.faults source.new ≡ S.faults source.old }
    ensures written_whole { result ≢ Status.WriteFault → K.faults sink.new ≡ K.faults sink.old }

    // A source that never fails is read, and a sink that has room for what the command writes takes it.
    ensures sound { result ≡ Status.ReadFault → S.never_fails source.old ≡ false }
    ensures room { result ≡ Status.WriteFault →
        HasAnswered (map (λ word. string_bytes word) words.now) (S.left source.old) (S.left source.new)
        (λ output. K.has_room sink.old (length output) ≡ false) }

    // What is left as it was.
    ensures unread { HasNoRead (command_of (map (λ word. string_bytes word) words.now)) → source.new ≡ source.old }
    ensures unwritten { IsBeforeWriting result → sink.new ≡ sink.old }

    // Where no count of faults rises, the status is that of the command on the text.
    ensures complete { ¬ Rose (S.faults source.old) (S.faults source.new)
        → ¬ Rose (K.faults sink.old) (K.faults sink.new)
        → IsStatusOn (command_of (map (λ word. string_bytes word) words.now)) (S.left source.old) result }
{
    let command = match command_in(alloc, words) {
        Ok(Some(command)) => command,
        Ok(None) => return Status::Usage,
        Err(refused) => return refused.into(),
    };
    let output = match output_of(rt, alloc, command, source, pace) {
        Ok(output) => output,
        Err(status) => return status,
    };
    match write_all(sink, &output.bytes) {
        Ok(()) => Status::Ok,
        Err(Failed) => Status::WriteFault,
    }
}
