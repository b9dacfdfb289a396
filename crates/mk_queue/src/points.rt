//! Where a caller is in its job.

use crate::jobs::{Done, Job};

/// What a caller asks of the heap next.
#[derive(Clone, Copy, Debug, PartialEq, Eq)]
pub enum Point {
    /// The first caller creates the ends,
    Founding,
    /// and a dummy.
    Grounding,
    /// If there is no room for one, it frees the ends.
    Dropping,
    /// The dummy is the head
    FirstHead,
    /// and the tail.
    FirstTail,
    /// Then the global points to the ends.
    Placing,
    Founded,
    /// A job loads the ends.
    Starting(Job),
    /// Are there any?
    Checking(Job),
    /// An enqueue creates a node,
    Making(u64),
    /// stores its number in it,
    Filling(u64),
    /// loads the tail,
    Loading(u64),
    /// and its link.
    Following(u64),
    /// Is it the last?
    Testing(u64),
    /// Then its link is exchanged for the node,
    Linking(u64),
    /// and the tail for that.
    Swinging,
    /// Else the tail is exchanged for its link, in place of a caller that didn't get to it.
    Helping(u64),
    /// A dequeue loads the head,
    Heading,
    /// and its link, which is null if nothing is queued.
    Peeking,
    /// Is it null?
    Asking,
    /// Else the head is exchanged for it,
    Taking,
    /// the old dummy is freed,
    Freeing,
    /// and the number of the new one is loaded. Others may have freed it by now.
    Reading,
    Ended(Done),
}
