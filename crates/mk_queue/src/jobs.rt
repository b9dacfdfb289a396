//! The jobs on a queue, and what becomes of them.

/// A job of a caller.
#[derive(Clone, Copy, Debug, PartialEq, Eq)]
pub enum Job {
    Enqueue(u64),
    Dequeue,
}

/// What became of a job.
#[derive(Clone, Copy, Debug, PartialEq, Eq)]
pub enum Done {
    Enqueued,
    /// There was no room for the node, and the queue stays as it was.
    Full,
    Dequeued(u64),
    Empty,
}
