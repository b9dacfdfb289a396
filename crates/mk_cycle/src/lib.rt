//! Cycles, and the engines that mark for them: one traces in the stop, the other beside the callers too.
//! A cycle releases just what was freed before it and isn't marked, and does nothing else.
//! Start with `engine`: what an engine owes; then `beginning`, `finishing`, and `closing` for the stop.
#![tactic(auto)]

mod beginning;
mod cleaning;
mod closing;
mod counting;
mod dirty;
mod engine;
mod finishing;
mod freeing;
mod gates;
mod giving;
mod grays;
mod laws;
pub mod lower;
mod mostly_engine;
mod noted;
mod noting;
mod reading;
mod releasing;
mod roots;
mod roots_beside;
mod scanning;
mod settling;
mod stepping;
mod steps_beside;
mod stop_engine;
mod stopping;
mod tables;
mod tallying;
mod tracing;
mod turn_steps;
mod values;
mod values_beside;
mod waiting;
mod wiping;
mod worklist;

pub use beginning::begin_cycle;
pub use closing::close_marks;
pub use engine::Engine;
pub use finishing::{Released, finish_cycle};
pub use gates::hold_gates;
pub use laws::reached_marks_sweep_nothing;
pub use mostly_engine::MostlyEngine;
pub use roots::{GLOBALS, REGISTERS};
pub use stop_engine::StopEngine;
pub use waiting::want_and_wait;
pub use worklist::Worklist;
