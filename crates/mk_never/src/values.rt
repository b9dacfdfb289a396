//! Values of registers, globals and words.

/// A value. A pointer names an allocation by its number, in the order of the grants from 0, with the
/// type that it was made for and the word of it, counted from 0.
#[derive(Clone, Copy, Debug, PartialEq, Eq)]
pub enum Value {
    Null,
    Num(u64),
    Ptr { number: u64, ty: u64, offset: u64 },
}

/// What an access through a register's value reaches.
#[derive(Clone, Copy, Debug, PartialEq, Eq)]
pub enum Target {
    Nothing,
    /// A large allocation that was freed.
    Unmapped,
    WordOf { number: u64, place: u64 },
}
