//! An engine that looks in the stop once at each word that may hold a pointer, and follows nothing.
//! What no such word points into is released (`sweep_cycle`).
//! Start with `sweep_engine`, then `cycles`.
#![tactic(auto)]

mod blackening;
mod clearing;
mod closing;
mod cycles;
mod laws;
pub mod lower;
mod roots;
mod stepping;
mod sweep_engine;
mod sweeping;
mod values;

pub use cycles::sweep_cycle;
pub use laws::{what_is_not_swept_is_released, what_is_not_swept_stays_unmarked};
pub use sweep_engine::SweepEngine;
