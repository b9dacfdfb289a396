//! What a cycle kept of its snapshot, and why.

/// Where a chain begins: a register of a caller, both by number, or a global.
#[derive(Clone, Copy, Debug, PartialEq, Eq)]
pub enum Root {
    Register { caller: u64, register: u64 },
    Global(u64),
}

/// A freed object that a cycle kept, and a shortest chain to it. Addresses are in bytes: heap word w has address
/// 65536 + 8 * w.
#[derive(Drop)]
pub struct Kept {
    /// The address of the object's first word.
    pub address: u64,
    /// The words of its storage.
    pub words: u64,
    /// Where the chain begins, or None if no chain leads to the object. With tracing it was then marked by a word
    /// that is gone now; with a sweep perhaps by a word of an object to which nothing leads.
    pub root: Option<Root>,
    /// The addresses of the heap words through which the chain leads. The root's word points into the object that has
    /// the first of them, each of them points into the object that has the next, and the last into the kept object.
    pub links: Vec<u64>,
}
