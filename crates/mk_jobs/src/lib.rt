//! Objects that callers share on a heap: a client states its jobs as points, each with an operation of the heap.
//! However its jobs are interleaved they are linearizable, and no object of the heap leaks; this is proved here once.
//! Start with `objects` and `steps`, then `runs` and `specs/Runs.antt`; `specs/Keeping.antt` is what a client shows.
#![tactic(auto)]

mod advancing;
mod engines;
mod going;
mod job_lists;
mod joining;
pub mod laws;
mod linked;
mod objects;
mod runs;
mod shared;
mod steps;
mod working;

pub use going::do_job;
pub use job_lists::{Dones, Jobs, run_jobs};
pub use linked::{Full, LINK, NODE_TYPE, NUMBER, ROOT_TYPE, linked_types, root_global, to_node};
pub use objects::{Linearizable, Object, explained_of};
pub use runs::{Outcome, run, run_objects};
pub use steps::{
    Step, clear, exchange, free, if_null, if_same, load, load_global, load_number, new, store,
    store_global, store_number,
};
