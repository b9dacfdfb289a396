//! The jobs on a stack, and what becomes of them.

/// A job of a caller.
#[derive(Clone, Copy, Debug, PartialEq, Eq)]
pub enum Job {
    Push(u64),
    Pop,
}

/// What became of a job.
#[derive(Clone, Copy, Debug, PartialEq, Eq)]
pub enum Done {
    Pushed,
    /// There was no room for the node, and the stack is as it was.
    Full,
    Popped(u64),
    /// Nothing was on the stack.
    Empty,
}
