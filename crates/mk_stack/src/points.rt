//! Where a caller is in its job.

use crate::jobs::{Done, Job};

/// What a caller asks of the heap next.
#[derive(Clone, Copy, Debug, PartialEq, Eq)]
pub enum Point {
    /// The first caller creates the top,
    Founding,
    /// and the global points to it.
    Placing,
    /// If there is no room for it, each push is full, and each pop finds nothing.
    Founded,
    /// A job loads the top.
    Starting(Job),
    /// Is there one?
    Checking(Job),
    /// A push creates a node,
    Making(u64),
    /// stores its number in it,
    Filling(u64),
    /// loads the uppermost node,
    Looking(u64),
    /// links its own to that,
    Linking(u64),
    /// and exchanges the uppermost for its own.
    Publishing(u64),
    /// A pop loads the uppermost node,
    Peeking,
    /// which is null if the stack is empty.
    Testing,
    /// Else it loads the node below,
    Following,
    /// exchanges the uppermost for that,
    Taking,
    /// frees the uppermost,
    Freeing,
    /// and loads its number, which it may: its own register still points to the node.
    Reading,
    Ended(Done),
}
