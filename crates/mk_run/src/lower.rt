//! What stands on this crate finds here what it needs of the crates below it.

/// A running heap, its host and its report.
pub mod heaps {
    pub use mk_heap::{Heap, Host, NoPace, Pace, Report};
}

/// Why freed objects are kept.
pub mod chains {
    pub use mk_why::{Kept, Root};
}

/// The engine that marks by a sweep.
pub mod sweeps {
    pub use mk_why::lower::sweeps::SweepEngine;
}

pub use mk_heap::lower::{callers, cycles, markers, objects, words};
