//! What a caller does with a queue, and a queue from first to last, with callers on threads of their own.
ghost use Rattle.std.specs.Prelude.{◌≤◌, [], length, IfOk};
ghost use Rattle.mk_core.specs.Moments.{IsBetween};
ghost use Rattle.mk_heap.specs.Hosts.{history_of};
ghost use Rattle.mk_jobs.specs.{Passes.{HasDone, IsReady}, Runs.{AreExplainedJobs, IsRun, object_config}};
ghost use Rattle.mk_queue.specs.Queue.{queue_plan, HasNumbers, dequeued, enqueued, left_by};

use crate::jobs::{Done, Job};
use crate::queues::Queue;
use mk_heap::Pace;
use mk_heap::lower::callers::Caller;
use mk_heap::lower::cycles::Engine;
use mk_jobs::{Full, Jobs, Outcome, do_job, run};
use mk_never::NoMemory;
use std::alloc::Global;
use std::sync::Wait;
use std::thread::Threads;

/// Puts a number at the end of the queue. It is Full as well if no queue was founded.
pub fn enqueue<E: Engine, R: Threads + Wait + Sync>(
    rt: &R,
    caller: &mut Caller,
    engine: &mut E,
    n: u64,
) -> Result<(), Full>
    requires ready { IsReady queue_plan E.made_for caller.old engine.old }
    ensures { HasDone queue_plan E.made_for E.ways.on caller.old (Job.Enqueue n) (enqueued result)
        caller.new engine.new }
{
    match do_job::<Queue, E, R>(rt, caller, engine, Job::Enqueue(n)) {
        Done::Enqueued => Ok(()),
        _ => Err(Full),
    }
}

/// Takes the first number of the queue, if there is one.
pub fn dequeue<E: Engine, R: Threads + Wait + Sync>(
    rt: &R,
    caller: &mut Caller,
    engine: &mut E,
) -> Option<u64>
    requires ready { IsReady queue_plan E.made_for caller.old engine.old }
    ensures { HasDone queue_plan E.made_for E.ways.on caller.old Job.Dequeue (dequeued result) caller.new engine.new }
{
    match do_job::<Queue, E, R>(rt, caller, engine, Job::Dequeue) {
        Done::Dequeued(n) => Some(n),
        _ => None,
    }
}

/// Founds a queue on a heap of its own, has a caller for each list do its jobs, each on a thread of its own, with
/// markers beside them, and joins all. A caller whose thread can't be started works here, and a marker whose thread
/// can't be started does nothing. Where memory is refused to a caller, the others work on, and all are joined.
pub fn run_queue<E: Engine + Send, P: Pace + Sync, R: Threads + Wait + Sync>(
    rt: &R,
    alloc: Global,
    pages: u64,
    resident: u64,
    markers: u64,
    lists: &[Jobs<Job>],
    pace: &P,
) -> Result<Outcome<Done>, NoMemory>
    requires pages { IsBetween 1 4096 pages }
    requires resident { IsBetween 1 pages resident }
    requires markers { markers ≤ 8 }
    requires callers { IsBetween 1 16 (length lists.now) }
    ensures runs { IfOk result
        (IsRun queue_plan E.ways.on (object_config queue_plan pages resident (length lists.now) markers) lists.now) }
    ensures explained { IfOk result (λ outcome. AreExplainedJobs queue_plan [] left_by HasNumbers
        (object_config queue_plan pages resident (length lists.now) markers) (history_of outcome.report) lists.now
        outcome.done.items) }
{
    run::<Queue, E, P, R>(rt, alloc, pages, resident, markers, lists, pace)
}
