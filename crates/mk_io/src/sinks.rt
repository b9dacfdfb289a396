// What bytes are written to.
ghost use Rattle.std.specs.Prelude.{◌≡◌, ℕ, Bool, List, ◌<◌, ◌≤◌, length, take, false, IfOk, OnOk, OnErr};
ghost use Rattle.std.specs.declared.option.Option.{Option};
ghost use Rattle.mk_io.specs.{Bytes.{Appends, KeepsRoom}, Memory.Rose};

use crate::Failed;

/// What bytes are written to, a part at a time.
///
/// The ghost member `taken` is the bytes that the sink took so far, or `None` if it doesn't say them: then the clauses
/// on content say nothing. `faults` counts the calls that failed, and `has_room` says that the sink takes this many
/// more bytes with no call that fails.
pub trait Sink {
    ghost taken: { Self → Option (List ℕ) };

    ghost faults: { Self → ℕ };

    ghost has_room: { Self → ℕ → Bool };

    /// Takes some bytes from the front of `bytes`, at least one if there is one, and returns how many.
    fn write(&mut self, bytes: &[u8]) -> Result<usize, Failed>
        ensures within { IfOk result (λ n. n ≤ length bytes.now) }
        ensures progress { IfOk result (λ n. 0 < length bytes.now → 0 < n) }
        ensures bytes { IfOk result (λ n.
            Appends (taken self.old) (taken self.new) (take n bytes.now)) }

        // A call that fails takes nothing, and is counted. No other is.
        ensures err { OnErr result (taken self.new ≡ taken self.old) }
        ensures fault { OnErr result (Rose (faults self.old) (faults self.new)) }
        ensures no_fault { OnOk result (faults self.new ≡ faults self.old) }
        ensures never_falls { faults self.old ≤ faults self.new }

        // A sink that has room for a piece doesn't fail, and keeps the rest of its room.
        ensures room { OnErr result (has_room self.old (length bytes.now) ≡ false) }
        ensures keeps_room { IfOk result (λ n. KeepsRoom (has_room self.old) (has_room self.new) n) };
}
