//! What a caller can ask of a heap, and what it is told.

use crate::Value;

/// An operation. `d`, `p`, `q` and `r` name pointer registers of the caller, 0 to 7, and `g` a global,
/// 0 to 63; `i` counts words from the one that the register points to.
#[derive(Clone, Copy, Debug, PartialEq, Eq)]
pub enum Op {
    /// Sets `d` to a new object whose words are all 0, or is refused if the heap is full.
    New { d: u8, ty: u64, full: bool },
    Free { p: u8 },
    GetNum { q: u8, i: u64 },
    SetNum { q: u8, i: u64, n: u64 },
    GetPtr { d: u8, q: u8, i: u64 },
    SetPtr { q: u8, i: u64, p: u8 },
    /// Sets the word to the value in `r` if it is the value in `p`.
    CasPtr { q: u8, i: u64, p: u8, r: u8 },
    /// Sets `d` to a pointer `i` words after that in `q`.
    Lea { d: u8, q: u8, i: u64 },
    Move { d: u8, q: u8 },
    Clear { d: u8 },
    GetGlobal { d: u8, g: u8 },
    SetGlobal { g: u8, p: u8 },
    Same { p: u8, q: u8 },
    IsNull { p: u8 },
}

/// What an operation answers. The refusals by an access or a free have numbers: 1 `Fault`, 2 `Null`,
/// 3 `Double`.
#[derive(Clone, Copy, Debug, PartialEq, Eq)]
pub enum Reply {
    Done,
    Num(u64),
    Val(Value),
    /// The new object fits nowhere.
    Full,
    /// An access to a freed large allocation.
    Fault,
    /// An access through null.
    Null,
    /// A free of what is freed already.
    Double,
}
