//! What can be wrong with a trace's text.
ghost use Rattle.std.specs.Prelude.{◌≡◌};
ghost use Rattle.mk_trace.specs.Grammar as spec;

use mk_check::TypeKind;
use mk_script::{LineFault, TextKind, Which};
use std::alloc::{AllocError, AllocFailed};

/// Why a text has no trace, or no memory. Lines are counted from 1.
#[derive(Clone, Copy, Debug, PartialEq, Eq)]
pub enum TraceStop {
    /// The first line that isn't of the grammar. Header: line 1 is absent or isn't `trace` with two more words.
    Text { line: u64, kind: TextKind },
    /// The first event that its slot's type doesn't admit, where all lines are of the grammar.
    IllTyped { line: u64, kind: TypeKind },
    /// A quantity is outside its limits. For bytes the line is 0.
    Limit { line: u64, which: Which, found: u64 },
    NoMemory,
}

impl TraceStop {
    /// What is wrong with the line of this number.
    pub(crate) fn at_line(line: u64, fault: LineFault) -> TraceStop
        ensures { result ≡ spec.text_fault_at line fault }
    {
        match fault {
            LineFault::Text(kind) => TraceStop::Text { line, kind },
            LineFault::Limit { which, found } => TraceStop::Limit { line, which, found },
        }
    }
}

impl From<AllocError> for TraceStop {
    ghost use Rattle.mk_trace.specs.declared.faults.TraceStop.{TraceStop};
    ghost use Rattle.mk_trace.specs.declared.faults.TraceStop.TheVariants.{NoMemory};

    ghost from_gives = { λ _ stop. stop ≡ NoMemory };

    fn from(_refused: AllocError) -> TraceStop {
        TraceStop::NoMemory
    }
}

impl<T: Drop> From<AllocFailed<T>> for TraceStop {
    ghost use Rattle.mk_trace.specs.declared.faults.TraceStop.{TraceStop};
    ghost use Rattle.mk_trace.specs.declared.faults.TraceStop.TheVariants.{NoMemory};

    ghost from_gives = { λ _ stop. stop ≡ NoMemory };

    fn from(_refused: AllocFailed<T>) -> TraceStop {
        TraceStop::NoMemory
    }
}
