//! The two halves of a page's quarantine word, one bit a cell in each.
ghost use Rattle.std.specs.Prelude.{◌≡◌, ◌+◌, ◌*◌, ◌/◌, ◌%◌, ◌<◌};

/// How many values a half has.
const HALF: u64 = 1 << 32;

/// Which cells of a page are freed, and which are in the snapshot of a cycle: bit k is cell k. In the word the freed
/// bits are the low half, and the snapshot is the high one.
#[derive(Clone, Copy)]
pub struct QuarantineWord {
    pub freed: u64,
    pub snapshot: u64,
}

impl QuarantineWord {
    /// The halves of a word.
    #[inline(always)]
    pub fn of(word: u64) -> QuarantineWord
        ensures freed { result.freed ≡ word % 4294967296 }
        ensures snapshot { result.snapshot ≡ word / 4294967296 }
    {
        QuarantineWord {
            freed: word % HALF,
            snapshot: word / HALF,
        }
    }

    /// The word of these halves.
    #[inline(always)]
    pub fn word(self) -> u64
        requires freed { self.freed < 4294967296 }
        requires snapshot { self.snapshot < 4294967296 }
        ensures { result ≡ self.freed + 4294967296 * self.snapshot }
    {
        self.freed + HALF * self.snapshot
    }
}
