//! A heap and its host, which runs cycles and closes it; any operation of a caller; and markers beside callers.
//! The report of `Heap::close` has the whole history, to proofs, and its tallies; each operation has its answer.
//! Start with `heaps` and `hosts`, then `dispatching` and `marking`.
#![tactic(auto)]

mod dispatching;
mod ending;
mod gathering;
mod heaps;
mod hosts;
mod last_turns;
pub mod lower;
mod marking;
mod paces;
mod reports;

// What a program needs of the crates below, so that it imports this one alone
pub use dispatching::{answer_at_once, answer_put_off, answer_to, answer_when_open};
pub use gathering::with_first;
pub use heaps::Heap;
pub use hosts::Host;
pub use last_turns::take_last_turns;
pub use marking::beside_markers;
pub use mk_alloc::lower::callers::{Caller, Refusal};
pub use mk_alloc::lower::cycles::{Engine, MostlyEngine, StopEngine};
pub use mk_alloc::{Double, Freed, Full, free_object, new_object};
pub use mk_core::{Answer, Config, GlobalTable};
pub use mk_never::{Kind, NoMemory, Op, TypeTable};
pub use paces::{NoPace, Pace};
pub use reports::Report;
