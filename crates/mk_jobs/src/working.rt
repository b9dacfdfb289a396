//! All that happens on an object, with markers beside it: it is made, and callers do their jobs.
ghost use Rattle.std.specs.{Prelude.{◌≡◌, ◌<◌}, Thread.IsSync};
ghost use Rattle.mk_heap.specs.Hosts.{HasMade, AllAreJoined};
ghost use Rattle.mk_jobs.specs.Joining.{AreEnginesFrom, AreEnginesOf, HaveEnded, HaveFoundedAndWorked};
ghost use Rattle.mk_jobs.specs.Passes.{IsMadeFor};
ghost use denote.Param.Send.{IsSend};

use crate::engines::{CallerEngines, Engines};
use crate::going::found;
use crate::job_lists::Dones;
use crate::joining::{Callers, Joined, run_from};
use crate::objects::Object;
use crate::shared::Run;
use mk_heap::lower::cycles::Engine;
use mk_heap::{Host, Pace, beside_markers, take_last_turns};
use mk_never::NoMemory;
use std::sync::Wait;
use std::thread::Threads;

/// What became of the jobs.
#[derive(Drop)]
pub(crate) struct Ended<D: Drop> {
    pub(crate) dones: Result<Vec<Dones<D>>, NoMemory>,
}

/// Makes the object, and has callers do their jobs on it. It joins them.
fn found_and_work<O: Object + Sync, E: Engine + Send, P: Pace + Sync, R: Threads + Wait + Sync>(
    rt: &R,
    run: &Run<O::Job>,
    pace: &P,
    mut host: Host,
    mut engines: CallerEngines<E>,
) -> Joined<O::Done>
    requires shared { IsSync R.row × IsSync P.row × IsSync O.row × IsSend E.row }
    requires made { IsMadeFor O.plan run.now.heap.now.config }
    requires host { HasMade run.now.heap.now run.now.markers 0 host }
    requires engines { AreEnginesFrom E.made_for run.now.heap.now 0 engines }
    ensures worked { HaveFoundedAndWorked O.plan E.ways.on run.now.heap.now run.now.markers run.now.lists.now result }
{
    let mut first = host.caller(run.heap);
    found::<O, E, R>(rt, &mut first, &mut engines.first);
    let pass = first.finish();
    run_from::<O, E, P, R>(rt, run, pace, 0, host, Callers { pass, engines })
}

/// Has callers do their jobs on an object, and says to the markers that all is over.
fn work<O: Object + Sync, E: Engine + Send, P: Pace + Sync, R: Threads + Wait + Sync>(
    rt: &R,
    run: &Run<O::Job>,
    pace: &P,
    host: Host,
    engines: Engines<E>,
) -> (Host, Ended<O::Done>)
    requires shared { IsSync R.row × IsSync P.row × IsSync O.row × IsSend E.row }
    requires made { IsMadeFor O.plan run.now.heap.now.config }
    requires host { HasMade run.now.heap.now run.now.markers 0 host }
    requires engines { AreEnginesOf E.made_for run.now.heap.now engines }
    ensures ended { HaveEnded O.plan E.ways.on run.now.heap.now run.now.markers run.now.lists.now result.0 result.1 }
{
    let Engines {
        callers,
        host: mut own,
    } = engines;
    let Joined { mut host, dones } = found_and_work::<O, E, P, R>(rt, run, pace, host, callers);
    take_last_turns(rt, run.heap, &mut host, &mut own, false);
    (host, Ended { dones })
}

/// Has callers do all that on an object, with markers beside them, each on a thread of its own, and joins all.
pub(crate) fn work_beside<
    O: Object + Sync,
    E: Engine + Send,
    P: Pace + Sync,
    R: Threads + Wait + Sync,
>(rt: &R, run: &Run<O::Job>, pace: &P, host: Host, engines: Engines<E>) -> (Host, Ended<O::Done>)
    requires shared { IsSync R.row × IsSync P.row × IsSync O.row × IsSend E.row }
    requires made { IsMadeFor O.plan run.now.heap.now.config }
    requires host { HasMade run.now.heap.now 0 0 host }
    requires engines { AreEnginesOf E.made_for run.now.heap.now engines }
    ensures ended { HaveEnded O.plan E.ways.on run.now.heap.now run.now.markers run.now.lists.now result.0 result.1 }
    ensures joined { AllAreJoined result.0 }
{
    let heap = run.heap;
    let markers = run.markers;
    beside_markers(
        rt,
        heap,
        pace,
        markers,
        0,
        host,
        move |host: Host| -> (Host, Ended<O::Done>)
            requires shared { IsSync R.row × IsSync P.row × IsSend E.row }
            requires made { IsMadeFor O.plan run.now.heap.now.config }
            requires host { HasMade run.now.heap.now run.now.markers 0 host }
            requires engines { AreEnginesOf E.made_for run.now.heap.now engines }
            ensures ended { HaveEnded O.plan E.ways.on run.entry.now.heap.now run.entry.now.markers
                run.entry.now.lists.now result.0 result.1 }
        { work::<O, E, P, R>(rt, run, pace, host, engines) },
    )
}
