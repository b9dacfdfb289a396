//! Lists of jobs, each done by a caller of its own.
ghost use Rattle.std.specs.Prelude.{◌≡◌, IfOk};
ghost use Rattle.mk_heap.specs.Below.Objects.TurnCalls.{OwnAreExact};
ghost use Rattle.mk_jobs.specs.{Runs.DoesJobs, Passes.IsReady};

use crate::going::do_job;
use crate::objects::Object;
use mk_heap::Pace;
use mk_heap::lower::callers::Caller;
use mk_heap::lower::cycles::Engine;
use mk_never::NoMemory;
use std::alloc::Global;
use std::sync::Wait;
use std::thread::Threads;

/// The jobs of one caller, in order.
#[derive(Drop)]
pub struct Jobs<J: Drop> {
    pub list: Vec<J>,
}

/// What became of each job of one caller, in their order.
#[derive(Drop)]
pub struct Dones<D: Drop> {
    pub list: Vec<D>,
}

/// Does jobs, one after the other, and tells what became of each. The pace is told of the number of the caller, and of
/// the place of each job in the list. Where memory is refused, the jobs after that aren't done.
pub fn run_jobs<O: Object, E: Engine, P: Pace, R: Threads + Wait + Sync>(
    rt: &R,
    alloc: Global,
    caller: &mut Caller,
    engine: &mut E,
    jobs: &[O::Job],
    pace: &P,
) -> Result<Dones<O::Done>, NoMemory>
    requires ready { IsReady O.plan E.made_for caller.old engine.old }
    ensures ready { IsReady O.plan E.made_for caller.new engine.new }
    ensures pass { caller.new.pass ≡ record caller.old.pass { seen = caller.new.pass.seen } }
    ensures does { IfOk result (λ dones. DoesJobs O.plan caller.old.pass jobs.now dones.list.items caller.new.pass) }
    ensures exact { OwnAreExact E.ways.on caller.old.pass → OwnAreExact E.ways.on caller.new.pass }
{
    let number = caller.number();
    let mut list = Vec::new(alloc);
    for (index, job) in jobs.iter().enumerate() {
        pace.before(number, index as u64);
        let done = do_job::<O, E, R>(rt, caller, engine, *job);
        pace.answered(number, index as u64);
        list.push(done)?;
    }
    Ok(Dones { list })
}
