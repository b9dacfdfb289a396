//! How a program over the calls ends.

use mk_heap::lower::objects::Full;
use mk_heap::lower::words::Pass;

/// Why no number was loaded.
#[derive(Drop)]
pub enum Unfinished {
    /// Nothing fits, after a cycle of the New.
    NoRoom(Full),
    /// The holder of the turn held the caller's gate.
    Held,
}

/// What the thread of a caller hands back: the caller's pass, for the host to join, and the number that was loaded.
#[derive(Drop)]
pub struct Loaded {
    pub pass: Pass,
    pub number: Result<u64, Unfinished>,
}
