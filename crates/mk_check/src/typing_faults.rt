//! What can be wrong with a program of the grammar.

use mk_never::NoMemory;

/// Why a program is not well typed: its least ill-typed line, counted from 1, or no memory.
#[derive(Clone, Copy, Debug, PartialEq, Eq)]
pub enum TypeStop {
    IllTyped { line: u64, kind: TypeKind },
    NoMemory,
}

impl From<NoMemory> for TypeStop {
    ghost use Rattle.std.specs.Prelude.{◌≡◌};
    ghost use Rattle.mk_check.specs.declared.typing_faults.TypeStop.TheVariants.{NoMemory};

    ghost from_gives = { λ _ stop. stop ≡ NoMemory };

    fn from(_: NoMemory) -> TypeStop {
        TypeStop::NoMemory
    }
}

/// What is wrong with a line.
#[derive(Clone, Copy, Debug, PartialEq, Eq)]
pub enum TypeKind {
    NoType,
    NoRegister,
    NoGlobal,
    /// An offset isn't inside its type.
    Offset,
    /// A word or a register is of another kind.
    Kind,
    /// A pointer that doesn't point to its object's first word is freed.
    InteriorFree,
    /// A script may execute more than 1,000,000 instructions; `count` is how many, or 2^64 - 1.
    TooLong { count: u64 },
}
