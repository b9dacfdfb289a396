//! What a marker reads off a phase word.
ghost use Rattle.std.specs.Prelude.{◌≡◌, ◌≤◌, ◌%◌};
ghost use Rattle.mk_core.specs.Words.{phase_number};

use mk_core::{Phase, phase_bits};

/// The phase that a phase word has.
pub(crate) fn phase_in(word: u64) -> Phase
    requires phase { word % 8 ≤ 5 }
    ensures { phase_number result ≡ word % 8 }
{
    match phase_bits(word) {
        0 => Phase::None,
        1 => Phase::Marking,
        2 => Phase::Wanted,
        3 => Phase::Closed,
        4 => Phase::Releasing,
        _ => Phase::Over,
    }
}
