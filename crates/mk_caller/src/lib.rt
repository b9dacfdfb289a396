//! The calls of a script's thread: loads, stores, exchanges and comparisons.
//! Each is one operation of the history, answered as the heap that never reuses storage replies there (`Called`).
//! Start with `callers`, the public calls; `calls` has their steps.
#![tactic(auto)]

mod accesses;
mod callers;
mod calls;
mod laws;
pub mod lower;
mod refusals;
mod steps;
mod tables;

pub use callers::Caller;
pub use laws::calls_leave_other_registers;
pub use refusals::Refusal;
