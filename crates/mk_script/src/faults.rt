//! What can be wrong with a text.
ghost use Rattle.std.specs.Prelude.{◌≡◌};
ghost use Rattle.mk_script.specs.Grammar.{fault_at, stop_at};

use std::alloc::{AllocError, AllocFailed};

/// Why a text has no program: the first line that isn't of the grammar, counted from 1, or no memory.
#[derive(Clone, Copy, Debug, PartialEq, Eq)]
pub enum TextStop {
    Text { line: u64, kind: TextKind },
    /// A quantity is outside its limits. `found` is the number at this line, or 2^64 - 1 where it is
    /// greater. For bytes the line is 0.
    Limit { line: u64, which: Which, found: u64 },
    NoMemory,
}

/// What is wrong with a line, but for limits.
#[derive(Clone, Copy, Debug, PartialEq, Eq)]
pub enum TextKind {
    /// Line 1 is absent or isn't `heap` with two more words.
    Header,
    /// The line has no such form, or stands in a wrong place.
    Word,
    /// Something that isn't a number stands in a number's place.
    Number,
    /// Something that isn't a name stands in a name's place.
    Name,
    /// A name is declared a second time.
    Twice,
    /// A block that isn't open is ended, or one that is open isn't.
    End,
}

/// The quantities that have limits.
#[derive(Clone, Copy, Debug, PartialEq, Eq)]
pub enum Which {
    Bytes,
    Pages,
    Resident,
    Scripts,
    Globals,
    Types,
    Words,
    Pointers,
    Numbers,
    Depth,
}

/// What is wrong with a line.
#[derive(Clone, Copy)]
pub enum LineFault {
    Text(TextKind),
    Limit { which: Which, found: u64 },
}

/// The greatest length of a text, in bytes.
pub const TEXT_LIMIT: usize = 1_048_576;

/// A text that is longer, which isn't counted to its end.
pub const TOO_LONG: LineFault = LineFault::Limit {
    which: Which::Bytes,
    found: TEXT_LIMIT as u64 + 1,
};

/// A line that has no such form, or stands in a wrong place.
pub const WORD: LineFault = LineFault::Text(TextKind::Word);

/// Why a line has no item.
#[derive(Clone, Copy)]
pub enum LineStop {
    Fault(LineFault),
    NoMemory,
}

impl TextStop {
    /// What is wrong with the line of this number.
    pub fn at_line(line: u64, fault: LineFault) -> TextStop
        ensures { result ≡ fault_at line fault }
    {
        match fault {
            LineFault::Text(kind) => TextStop::Text { line, kind },
            LineFault::Limit { which, found } => TextStop::Limit { line, which, found },
        }
    }
}

impl LineStop {
    /// Why a text is refused whose line of this number is.
    pub fn at(self, line: u64) -> TextStop
        ensures { result ≡ stop_at line self }
    {
        match self {
            LineStop::Fault(fault) => TextStop::at_line(line, fault),
            LineStop::NoMemory => TextStop::NoMemory,
        }
    }
}

impl From<LineFault> for LineStop {
    ghost use Rattle.mk_script.specs.declared.faults.LineStop.{LineStop, TheVariants.Fault};

    ghost from_gives = { λ fault stop. stop ≡ Fault fault };

    fn from(fault: LineFault) -> LineStop {
        LineStop::Fault(fault)
    }
}

impl From<AllocError> for LineStop {
    ghost use Rattle.mk_script.specs.declared.faults.LineStop.{LineStop, TheVariants.NoMemory};

    ghost from_gives = { λ _ stop. stop ≡ NoMemory };

    fn from(_refused: AllocError) -> LineStop {
        LineStop::NoMemory
    }
}

impl<T: Drop> From<AllocFailed<T>> for LineStop {
    ghost use Rattle.mk_script.specs.declared.faults.LineStop.{LineStop, TheVariants.NoMemory};

    ghost from_gives = { λ _ stop. stop ≡ NoMemory };

    fn from(_refused: AllocFailed<T>) -> LineStop {
        LineStop::NoMemory
    }
}

impl From<AllocError> for TextStop {
    ghost use Rattle.mk_script.specs.declared.faults.TextStop.{TextStop, TheVariants.NoMemory};

    ghost from_gives = { λ _ stop. stop ≡ NoMemory };

    fn from(_refused: AllocError) -> TextStop {
        TextStop::NoMemory
    }
}
