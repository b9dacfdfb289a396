//! Quantities outside their limits.
ghost use Rattle.std.specs.Prelude.{◌≡◌};
ghost use Rattle.mk_script.specs.Lines as spec;

use crate::faults::{LineFault, Which};

/// The fault of a quantity that is above its limit.
pub fn at_most(found: u64, greatest: u64, which: Which) -> Option<LineFault>
    ensures { result ≡ spec.at_most found greatest which }
{
    if found <= greatest {
        None
    } else {
        Some(LineFault::Limit { which, found })
    }
}

/// The fault of a quantity that is above or below its limits.
pub fn within(least: u64, found: u64, greatest: u64, which: Which) -> Option<LineFault>
    ensures { result ≡ spec.within least found greatest which }
{
    if least <= found && found <= greatest {
        None
    } else {
        Some(LineFault::Limit { which, found })
    }
}

/// The fault of a heap of this many pages, this many of which may be resident, where one is outside its limits.
pub fn heap_limit(pages: u64, resident: u64) -> Option<LineFault>
    ensures { result ≡ spec.heap_limit pages resident }
{
    within(1, pages, 4096, Which::Pages).or(within(1, resident, pages, Which::Resident))
}
