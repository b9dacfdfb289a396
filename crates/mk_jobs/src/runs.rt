//! An object from first to last: callers do their jobs on it, each on a thread of its own.
ghost use Rattle.std.specs.Prelude.{◌≡◌, length, IfOk};
ghost use Rattle.mk_core.specs.Moments.{IsWithinLimits};
ghost use Rattle.mk_heap.specs.Hosts.{history_of};
ghost use Rattle.mk_jobs.specs.Runs.{AreExplainedJobs, IsRun, object_config};

use crate::engines::Engines;
use crate::job_lists::{Dones, Jobs};
use crate::objects::{Linearizable, Object};
use crate::shared::Run;
use crate::working::work_beside;
use mk_core::Config;
use mk_heap::lower::cycles::Engine;
use mk_heap::{Heap, Pace, Report};
use mk_never::NoMemory;
use std::alloc::Global;
use std::sync::Wait;
use std::thread::Threads;

/// What became of each caller's jobs, in the order of their lists, and what is said of the heap, which is closed.
#[derive(Drop)]
pub struct Outcome<D: Drop> {
    pub done: Vec<Dones<D>>,
    pub report: Report,
}

/// The heap of an object.
fn object_config<O: Object>(
    alloc: Global,
    pages: u64,
    resident: u64,
    callers: u64,
    markers: u64,
) -> Result<Config, NoMemory>
    ensures { IfOk result (λ config. config ≡ object_config O.plan pages resident callers markers) }
{
    Ok(Config {
        pages,
        resident,
        callers,
        markers,
        types: O::types(alloc)?,
        globals: O::globals(alloc)?,
    })
}

/// Makes an object on a heap of its own, has a caller for each list do its jobs, each on a thread of its own, with
/// markers beside them, and joins all. A caller whose thread can't be started works here, and a marker whose thread
/// can't be started does nothing. Where memory is refused to a caller, the others work on, and all are joined.
pub fn run_objects<O: Object + Sync, E: Engine + Send, P: Pace + Sync, R: Threads + Wait + Sync>(
    rt: &R,
    alloc: Global,
    pages: u64,
    resident: u64,
    markers: u64,
    lists: &[Jobs<O::Job>],
    pace: &P,
) -> Result<Outcome<O::Done>, NoMemory>
    requires limits { IsWithinLimits (object_config O.plan pages resident (length lists.now) markers) }
    ensures { IfOk result
        (IsRun O.plan E.ways.on (object_config O.plan pages resident (length lists.now) markers) lists.now) }
{
    let callers = lists.len() as u64;
    let config = object_config::<O>(alloc, pages, resident, callers, markers)?;
    // No thread is started before all engines are made.
    let engines: Engines<E> = Engines::new(alloc, callers - 1, pages)?;
    let (heap, host) = Heap::new(alloc, &config)?;
    let run = Run {
        alloc,
        heap: &heap,
        lists,
        markers,
    };
    let (host, ended) = work_beside::<O, E, P, R>(rt, &run, pace, host, engines);
    let report = heap.close(host);
    Ok(Outcome {
        done: ended.dones?,
        report,
    })
}

/// The same for an object whose jobs are linearizable: those of this run are.
pub fn run<O: Linearizable + Sync, E: Engine + Send, P: Pace + Sync, R: Threads + Wait + Sync>(
    rt: &R,
    alloc: Global,
    pages: u64,
    resident: u64,
    markers: u64,
    lists: &[Jobs<O::Job>],
    pace: &P,
) -> Result<Outcome<O::Done>, NoMemory>
    requires limits { IsWithinLimits (object_config O.plan pages resident (length lists.now) markers) }
    ensures runs { IfOk result
        (IsRun O.plan E.ways.on (object_config O.plan pages resident (length lists.now) markers) lists.now) }
    ensures explained { IfOk result (λ outcome. AreExplainedJobs O.plan O.first O.left_by O.content
        (object_config O.plan pages resident (length lists.now) markers) (history_of outcome.report) lists.now
        outcome.done.items) }
{
    O::explained();
    run_objects::<O, E, P, R>(rt, alloc, pages, resident, markers, lists, pace)
}
