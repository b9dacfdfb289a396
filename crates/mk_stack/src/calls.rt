//! A push and a pop by a caller of a stack, and a stack from first to last, with callers on threads of their own.
ghost use Rattle.std.specs.Prelude.{◌≤◌, [], length, IfOk};
ghost use Rattle.mk_core.specs.Moments.{IsBetween};
ghost use Rattle.mk_heap.specs.Hosts.{history_of};
ghost use Rattle.mk_jobs.specs.{Passes.{HasDone, IsReady}, Runs.{AreExplainedJobs, IsRun, object_config}};
ghost use Rattle.mk_stack.specs.Stack.{stack_plan, HasNumbers, left_by, popped, pushed};

use crate::jobs::{Done, Job};
use crate::stacks::Stack;
use mk_heap::Pace;
use mk_heap::lower::callers::Caller;
use mk_heap::lower::cycles::Engine;
use mk_jobs::{Full, Outcome, do_job, run};
use mk_never::NoMemory;
use std::alloc::Global;
use std::sync::Wait;
use std::thread::Threads;

/// Puts a number on the stack.
pub fn push<E: Engine, R: Threads + Wait + Sync>(
    rt: &R,
    caller: &mut Caller,
    engine: &mut E,
    n: u64,
) -> Result<(), Full>
    requires ready { IsReady stack_plan E.made_for caller.old engine.old }
    ensures { HasDone stack_plan E.made_for E.ways.on caller.old (Job.Push n) (pushed result) caller.new engine.new }
{
    match do_job::<Stack, E, R>(rt, caller, engine, Job::Push(n)) {
        Done::Pushed => Ok(()),
        _ => Err(Full),
    }
}

/// Takes the uppermost number off the stack, if there is one, and frees its node.
pub fn pop<E: Engine, R: Threads + Wait + Sync>(
    rt: &R,
    caller: &mut Caller,
    engine: &mut E,
) -> Option<u64>
    requires ready { IsReady stack_plan E.made_for caller.old engine.old }
    ensures { HasDone stack_plan E.made_for E.ways.on caller.old Job.Pop (popped result) caller.new engine.new }
{
    match do_job::<Stack, E, R>(rt, caller, engine, Job::Pop) {
        Done::Popped(n) => Some(n),
        _ => None,
    }
}

/// The jobs of one caller, in order.
pub type Jobs = mk_jobs::Jobs<Job>;

/// What became of each job of one caller, in their order.
pub type Dones = mk_jobs::Dones<Done>;

/// What became of each caller's jobs, and what is said of the heap, which is closed. What is left on the stack is known
/// to proofs: the numbers that the order of the jobs leaves.
pub type StackOutcome = Outcome<Done>;

/// Makes a stack on a heap of its own, has a caller for each list do its jobs, each on a thread of its own, with
/// markers beside them, and joins all. A caller whose thread can't be started works here, and a marker whose thread
/// can't be started does nothing. Where memory is refused to a caller, the others work on, and all are joined.
pub fn run_stack<E: Engine + Send, P: Pace + Sync, R: Threads + Wait + Sync>(
    rt: &R,
    alloc: Global,
    pages: u64,
    resident: u64,
    markers: u64,
    lists: &[Jobs],
    pace: &P,
) -> Result<StackOutcome, NoMemory>
    requires pages { IsBetween 1 4096 pages }
    requires resident { IsBetween 1 pages resident }
    requires markers { markers ≤ 8 }
    requires callers { IsBetween 1 16 (length lists.now) }
    ensures runs { IfOk result
        (IsRun stack_plan E.ways.on (object_config stack_plan pages resident (length lists.now) markers) lists.now) }
    ensures explained { IfOk result (λ outcome. AreExplainedJobs stack_plan [] left_by HasNumbers
        (object_config stack_plan pages resident (length lists.now) markers) (history_of outcome.report) lists.now
        outcome.done.items) }
{
    run::<Stack, E, P, R>(rt, alloc, pages, resident, markers, lists, pace)
}
