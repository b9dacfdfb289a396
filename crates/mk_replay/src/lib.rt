//! Schedules: one given history of a heap, run event by event on the core.
//! `replay` performs each event that is enabled, and reports the first that isn't, with the condition that fails.
//! Start with `replaying`; `schedule_parsing` reads the text.
#![tactic(auto)]

mod forms;
mod lines;
mod players;
mod replaying;
mod schedule;
mod schedule_parsing;
mod steps;

pub use replaying::{ReplayStop, replay};
pub use schedule::{Entry, Schedule};
pub use schedule_parsing::parse_replay;
