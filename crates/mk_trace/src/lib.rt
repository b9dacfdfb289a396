//! Traces: the reader of their texts, the player, and the peaks of what playing one makes.
//! The peaks that are printed are those of the history, exactly.
//! Start with `trace` and `playing`; `specs/Peaks.antt` defines the peaks.
#![tactic(auto)]

mod calls;
mod configs;
mod draft;
mod faults;
pub mod laws;
mod ledger;
mod lines;
mod looking;
mod operations;
mod parsing;
mod peaks;
mod player;
mod playing;
mod resolving;
mod settling;
mod trace;

pub use faults::TraceStop;
pub use parsing::parse_trace;
pub use peaks::{Peaks, print_peaks};
pub use playing::play;
pub use trace::{Trace, TraceEvent};
