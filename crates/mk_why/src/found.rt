//! What the tables of a search have of an allocation.

use crate::kept::Root;

/// How the search first found an allocation.
#[derive(Clone, Copy, Debug, PartialEq, Eq)]
pub(crate) enum Way {
    Start(Root),
    /// Through a link, the address of a word, in the allocation that begins at heap word `from`.
    Link { link: u64, from: u64 },
}

/// An allocation that was found, through this many links.
#[derive(Clone, Copy, Debug, PartialEq, Eq)]
pub(crate) struct Found {
    pub(crate) way: Way,
    pub(crate) links: u64,
}

/// The storage of a kept allocation: its address, and how many words it has.
#[derive(Clone, Copy, Debug, PartialEq, Eq)]
pub(crate) struct Storage {
    pub(crate) address: u64,
    pub(crate) words: u64,
}
