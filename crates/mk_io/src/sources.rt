// What bytes are read from.
ghost use Rattle.std.specs.Prelude.{◌≡◌, ℕ, Bool, List, ◌<◌, ◌≤◌, length, take, true, false, IfOk, OnOk, OnErr};
ghost use Rattle.std.specs.declared.option.Option.{Option};
ghost use Rattle.mk_io.specs.{Bytes.{Takes, IsAtEnd}, Memory.Rose};

use crate::Failed;

/// What bytes are read from, a part at a time.
///
/// The ghost member `left` is the bytes that are still to come, or `None` if the source doesn't tell them: then the
/// clauses on content say nothing. `faults` counts the calls that failed, and `never_fails` says that no call fails
/// from now on.
pub trait Source {
    ghost left: { Self → Option (List ℕ) };

    ghost faults: { Self → ℕ };

    ghost never_fails: { Self → Bool };

    /// Reads some bytes to the front of `buf`, and returns how many. After them `buf` may hold anything.
    ///
    /// If `buf` has room and no byte is read, the input is at its end.
    fn read(&mut self, buf: &mut [u8]) -> Result<usize, Failed>
        ensures within { IfOk result (λ n. n ≤ length buf.new) }
        ensures bytes { IfOk result (λ n. Takes (left self.old) (left self.new) (take n buf.new)) }
        ensures end { IfOk result (λ n. n ≡ 0 → 0 < length buf.new → IsAtEnd (left self.old)) }

        // A call that fails takes nothing, and is counted. No other is.
        ensures err { OnErr result (left self.new ≡ left self.old) }
        ensures fault { OnErr result (Rose (faults self.old) (faults self.new)) }
        ensures no_fault { OnOk result (faults self.new ≡ faults self.old) }
        ensures never_falls { faults self.old ≤ faults self.new }

        // A source that never fails doesn't, and stays so.
        ensures sound { OnErr result (never_fails self.old ≡ false) }
        ensures stays_sound { never_fails self.old ≡ true → never_fails self.new ≡ true };
}
