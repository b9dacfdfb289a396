//! Callers on one queue, each on a thread of its own: what became of their jobs, and what is left.
ghost use Rattle.std.specs.Prelude.{◌≤◌};

use crate::large_runs::ThenTheRest;
use crate::moves::Move;
use crate::shared::{Shared, became_what_is_said, jobs_of_four, jobs_said, what_is_wrong};
use mk_queue::{Done, Job, run_queue};
use mk_run::lower::cycles::MostlyEngine;
use mk_run::lower::heaps::NoPace;
use std::alloc::{AllocError, Global};
use std::sync::Wait;
use std::thread::Threads;

/// What one caller alone enqueues and dequeues on a page. It has 32 cells: one for the ends, one for the dummy, and 30.
const ROWS: &str = "\
the first number in is the first out | - +1 +2 -1 +3 -2 -3 - +4 +4 -4 -4 -
the cell of an old dummy is there for the next node | \
    +0 +1 +2 +3 +4 +5 +6 +7 +8 +9 +10 +11 +12 +13 +14 +15 +16 +17 +18 +19 +20 +21 +22 +23 +24 +25 +26 +27 +28 +29 +30! \
    -0 +31 +32! -1 -2 +33 +34 +35! \
    -3 -4 -5 -6 -7 -8 -9 -10 -11 -12 -13 -14 -15 -16 -17 -18 -19 -20 -21 -22 -23 -24 -25 -26 -27 -28 -29 -31 -33 -34 -
";

/// A queue that callers share.
struct OfQueue;

impl Shared<Job, Done> for OfQueue {
    fn job_of(it: Move) -> Job {
        match it {
            Move::Put(number) | Move::Full(number) => Job::Enqueue(number),
            Move::Taken(_) | Move::Empty => Job::Dequeue,
        }
    }

    fn move_of(job: Job, done: Done) -> Option<Move> {
        match (job, done) {
            (Job::Enqueue(number), Done::Enqueued) => Some(Move::Put(number)),
            (Job::Enqueue(number), Done::Full) => Some(Move::Full(number)),
            (Job::Dequeue, Done::Dequeued(number)) => Some(Move::Taken(number)),
            (Job::Dequeue, Done::Empty) => Some(Move::Empty),
            _ => None,
        }
    }

    /// The first in is the first out.
    fn is_order(_alloc: Global, taken: &[u64]) -> Result<bool, AllocError> {
        Ok(taken.is_sorted())
    }
}

/// Whether one caller alone, on a heap of one page, does what a row says.
fn goes<R: Threads + Wait + Sync>(rt: &R, alloc: Global, row: &str) -> Option<bool> {
    let lists = [jobs_said::<OfQueue, Job, Done>(alloc, row)?];
    let run = run_queue::<MostlyEngine, NoPace, R>(rt, alloc, 1, 1, 0, &lists, &NoPace).ok()?;
    became_what_is_said::<OfQueue, Job, Done>(alloc, row, &lists[0].list, &run)
}

#[test]
fn one_caller_dequeues_in_order(rt: HostRuntime) {
    for row in ROWS.lines() {
        assert!(rt; goes(&rt, rt.alloc(), row) == Some(true), "{row}");
    }
}

/// What is wrong where four callers do their jobs beside so many markers, if anything is. There is room for all
/// numbers.
fn wrong_of_four<R: Threads + Wait + Sync>(
    rt: &R,
    alloc: Global,
    markers: u64,
) -> Option<&'static str>
    requires markers { markers ≤ 8 }
{
    let Some(lists) = jobs_of_four::<OfQueue, Job, Done>(alloc) else {
        return Some("memory is refused");
    };
    if lists.len() != 4 {
        return Some("there aren't four callers");
    }
    let pace = ThenTheRest::new();
    let run = run_queue::<MostlyEngine, ThenTheRest, R>(
        rt, alloc, 4096, 4096, markers, &lists, &pace,
    );
    let Ok(run) = run else {
        return Some("memory is refused");
    };
    if pace.was_in_vain() {
        return Some("a caller waited in vain");
    }
    what_is_wrong::<OfQueue, Job, Done>(alloc, &lists, &run)
}

/// Each number that is enqueued is dequeued once, and those of each caller in its order.
#[test]
fn four_callers_dequeue_in_the_order_of_each(rt: HostRuntime) {
    for markers in [0, 2] {
        let wrong = wrong_of_four(&rt, rt.alloc(), markers);
        assert_eq!(rt; wrong, None, "beside {markers} markers");
    }
}
