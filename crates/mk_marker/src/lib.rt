//! What the thread of one marker does on a heap.
//! It attends a cycle, scans a marked cell at a time and quits when the close is wanted; each answer has its cause.
//! Start with `markers`, then `steps`.
#![tactic(auto)]

mod cells;
mod markers;
mod phases;
mod scans;
mod steps;

pub use markers::{Marker, NotMarking, Work};
