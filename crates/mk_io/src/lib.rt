//! Where bytes come from and where they go: sources and sinks that count their faults.
//! A source is read to its end and a sink written whole, or the call says what went wrong and the faults show it.
//! Start with `sources` and `sinks`, the two traits; then `reading` and `writing`.
#![tactic(auto)]

mod memory;
mod reading;
mod sinks;
mod sources;
mod streams;
mod writing;

pub use memory::{MemSink, MemSource};
pub use reading::{INPUT_LIMIT, ReadStop, read_all};
pub use sinks::Sink;
pub use sources::Source;
pub use streams::{StdinSource, StdoutSink};
pub use writing::write_all;

/// A call of a source or a sink that failed, and moved no byte.
#[derive(Clone, Copy, Debug, PartialEq, Eq)]
pub struct Failed;

/// There was no memory for what was asked.
#[derive(Clone, Copy, Debug, PartialEq, Eq)]
pub struct NoMemory;
