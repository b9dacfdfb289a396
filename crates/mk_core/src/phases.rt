//! The phases of a heap, and what a phase word says. It has the phase in its low three bits, and above them the count
//! of the markers that are in.
ghost use Rattle.std.specs.Prelude.{◌≡◌, ◌==◌, ◌%◌, ◌/◌};
ghost use Rattle.mk_core.specs.Words.{phase_number};

/// How many phase words there are for each count of markers.
const PHASES: u64 = 8;

/// What a heap is at: in no cycle, in one of a cycle's four phases, or past all cycles.
#[derive(Clone, Copy)]
pub enum Phase {
    None,
    Marking,
    /// The turn holder wants to close the marks, so markers are to go out.
    Wanted,
    Closed,
    Releasing,
    Over,
}

impl Phase {
    /// Its number in the low bits of a phase word.
    #[inline(always)]
    pub fn number(self) -> u64
        ensures { result ≡ phase_number self }
    {
        match self {
            Phase::None => 0,
            Phase::Marking => 1,
            Phase::Wanted => 2,
            Phase::Closed => 3,
            Phase::Releasing => 4,
            Phase::Over => 5,
        }
    }

    /// Whether a phase word has this phase.
    #[inline(always)]
    pub fn is_in(self, word: u64) -> bool
        ensures { result ≡ (word % 8 == phase_number self) }
    {
        phase_bits(word) == self.number()
    }
}

/// The low bits of a phase word, without the count of the markers that are in.
#[inline(always)]
pub fn phase_bits(word: u64) -> u64
    ensures { result ≡ word % 8 }
{
    word % PHASES
}

/// How many markers are in, by a phase word.
#[inline(always)]
pub fn markers_in(word: u64) -> u64
    ensures { result ≡ word / 8 }
{
    word / PHASES
}
