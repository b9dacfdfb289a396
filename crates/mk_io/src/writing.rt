// Writing all bytes to a sink.
ghost use Rattle.std.specs.Prelude.{◌≡◌, ◌≤◌, length, false, OnOk, OnErr};
ghost use Rattle.mk_io.specs.{Bytes.{Appends, AppendsPart}, Memory.Rose};

use crate::Failed;
use crate::sinks::Sink;

/// Writes all of `bytes`, in as many calls as the sink needs.
///
/// If the sink doesn't say what it took, the clauses on content say nothing.
pub fn write_all<K: Sink>(sink: &mut K, bytes: &[u8]) -> Result<(), Failed>
    ensures ok { OnOk result (Appends (K.taken sink.old) (K.taken sink.new) bytes.now) }

    // After a failure the sink has a part of the bytes, and not all.
    ensures part { OnErr result (AppendsPart (K.taken sink.old) (K.taken sink.new) bytes.now) }
    ensures fault { OnErr result (Rose (K.faults sink.old) (K.faults sink.new)) }
    ensures no_fault { OnOk result (K.faults sink.new ≡ K.faults sink.old) }
    ensures never_falls { K.faults sink.old ≤ K.faults sink.new }

    // A sink that has room for the bytes takes them.
    ensures room { OnErr result (K.has_room sink.old (length bytes.now) ≡ false) }
{
    let mut written = 0;
    while written < bytes.len() {
        written += sink.write(&bytes[written..])?;
    }
    Ok(())
}
