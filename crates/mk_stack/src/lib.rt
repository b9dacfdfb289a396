//! Numbers on a stack that callers share (Treiber, 1986), on a heap as it stands: a popped node is freed at once.
//! The jobs of all callers stand in one order that a plain list explains, and no node leaks.
//! Start with `stacks`: the points of a job, and the operation of each. `specs/Stack.antt` has the plain list.
#![tactic(auto)]

mod calls;
mod jobs;
mod points;
mod stacks;

pub use calls::{Dones, Jobs, StackOutcome, pop, push, run_stack};
pub use jobs::{Done, Job};
pub use mk_jobs::Full;
pub use points::Point;
pub use stacks::Stack;
