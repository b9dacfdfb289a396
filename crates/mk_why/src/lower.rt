//! What stands on this crate finds here what it needs of the crates below it.

/// The engine that marks by a sweep.
pub mod sweeps {
    pub use mk_sweep::SweepEngine;
}
