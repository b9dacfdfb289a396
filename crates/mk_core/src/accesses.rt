//! Accesses to the words of the shared table.

use crate::Word;

/// A word of the shared table: the turn, or one that can be looked at.
#[derive(Clone, Copy)]
pub enum TableWord {
    Turn,
    Named(Word),
}

/// How a word is accessed. Each access is one sequentially consistent step.
#[derive(Clone, Copy)]
pub enum Access {
    Load,
    Store(u64),
    /// Stores `new` if it finds `old`.
    Exchange { old: u64, new: u64 },
    Or(u64),
    Add(u64),
    Sub(u64),
}
