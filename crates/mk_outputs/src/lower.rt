//! What stands on this crate finds here what it needs of the crates below it.

/// What a test makes wait, and a program doesn't.
pub mod heaps {
    pub use mk_run::lower::heaps::{NoPace, Pace};
}
