//! A queue of numbers that callers share (Michael and Scott, PODC 1996), on a heap as it stands.
//! A dequeued dummy is freed at once. The jobs of all callers stand in one order that a plain list explains.
//! Start with `queues`: the points of a job, and why one look at head is enough; then `calls` and `specs/Queue.antt`.
#![tactic(auto)]

mod calls;
mod jobs;
mod points;
mod queues;

pub use calls::{dequeue, enqueue, run_queue};
pub use jobs::{Done, Job};
pub use mk_jobs::{Dones, Full, Jobs, Outcome};
pub use points::Point;
pub use queues::Queue;
