//! The heap that never reuses storage: what a program may rely on, as plain data and as a machine of one thread.
//! `NeverHeap::apply` replies and leaves what the definition says; the real heap's answers are compared with it.
//! Start with `specs/NeverHeap.antt`, then `specs/Admitted.antt`: which operations may be asked.
#![tactic(auto)]

pub mod laws;
mod never_heap;
mod operations;
mod types;
mod values;

pub use never_heap::{NeverHeap, NoMemory};
pub use operations::{Op, Reply};
pub use types::{Kind, TypeTable};
pub use values::Value;
