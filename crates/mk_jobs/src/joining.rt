//! Callers on threads of their own, and the host that joins them.
ghost use Rattle.std.specs.{Prelude.{◌≡◌, ◌+◌, ◌<◌, ◌∷◌, [], drop, slice_get, IfSome, List, ℕ}, Thread.IsSync};
ghost use Rattle.mk_heap.specs.{Below.Callers.States.IsIdleCaller, Hosts.HasMade};
ghost use Rattle.mk_jobs.specs.{Jobs.Replied, Joining.{AreCallersFrom, HasWorked, HaveWorked, IsBetweenJobs}};
ghost use Rattle.mk_jobs.specs.Passes.{IsMadeFor, replied_to};
ghost use denote.Param.Send.{IsSend};

use crate::engines::CallerEngines;
use crate::job_lists::{Dones, Jobs, run_jobs};
use crate::objects::Object;
use crate::shared::Run;
use mk_heap::lower::callers::Caller;
use mk_heap::lower::cycles::Engine;
use mk_heap::lower::words::Pass;
use mk_heap::{Heap, Host, Pace, with_first};
use mk_never::NoMemory;
use std::sync::Wait;
use std::thread;
use std::thread::Threads;

/// What the thread of a caller hands back.
#[derive(Drop)]
struct Worked<D: Drop> {
    pass: Pass,
    dones: Result<Dones<D>, NoMemory>,
}

/// The host of callers that are joined, and what became of their jobs, in order.
#[derive(Drop)]
pub(crate) struct Joined<D: Drop> {
    pub(crate) host: Host,
    pub(crate) dones: Result<Vec<Dones<D>>, NoMemory>,
}

/// The callers that have not begun their jobs: the pass of the first of them, and an engine for each.
#[derive(Drop)]
pub(crate) struct Callers<E: Engine> {
    pub(crate) pass: Pass,
    pub(crate) engines: CallerEngines<E>,
}

/// The work of a caller's thread.
fn work_alone<O: Object, E: Engine, P: Pace, R: Threads + Wait + Sync>(
    rt: &R,
    run: &Run<O::Job>,
    pace: &P,
    k: u64,
    pass: Pass,
    mut engine: E,
) -> Worked<O::Done>
    requires exists { k < run.now.heap.now.config.callers }
    requires made { IsMadeFor O.plan run.now.heap.now.config }
    requires pass { IsBetweenJobs E.ways.on run.now.heap.now k pass }
    requires engine { E.made_for engine ≡ run.now.heap.now.config.pages }
    ensures worked { IfSome (slice_get run.now.lists.now k) (λ jobs.
        HasWorked O.plan E.ways.on run.now.heap.now (replied_to pass) k jobs.list.items result) }
{
    let jobs = &run.lists[k as usize];
    let mut caller = Caller::new(run.heap.words(), pass);
    let dones = run_jobs::<O, E, P, R>(rt, run.alloc, &mut caller, &mut engine, &jobs.list, pace);
    Worked {
        pass: caller.finish(),
        dones,
    }
}

/// Joins a caller that has worked.
fn join_worked<O: Object, E: Engine>(
    heap: &Heap,
    worked: Worked<O::Done>,
    joined: Joined<O::Done>,
) -> Joined<O::Done>
    requires one_table { joined.host.pass.table ≡ heap.now }
    requires of_table { worked.pass.table ≡ heap.now }
    requires alone { worked.pass.seats ≡ worked.pass.seat ∷ [] }
    requires idle { IsIdleCaller worked.pass }
    ensures { (markers : ℕ) (first : List Replied) (k : ℕ) (jobs : Jobs O.Job) (others : List (Jobs O.Job))
        → HasWorked O.plan E.ways.on heap.now first k jobs.list.items worked
        → HaveWorked O.plan E.ways.on heap.now markers [] (k + 1) others joined
        → HaveWorked O.plan E.ways.on heap.now markers first k (jobs ∷ others) result }
{
    let Worked { pass, dones } = worked;
    let Joined {
        mut host,
        dones: others,
    } = joined;
    host.join_caller(heap, pass);
    Joined {
        host,
        dones: with_first(dones, others),
    }
}

/// Has the callers from `k` on do their lists of jobs, each on a thread of its own and with an engine of its own. It
/// joins them. A caller whose thread can't be started works here.
pub(crate) fn run_from<
    O: Object + Sync,
    E: Engine + Send,
    P: Pace + Sync,
    R: Threads + Wait + Sync,
>(
    rt: &R,
    run: &Run<O::Job>,
    pace: &P,
    k: u64,
    mut host: Host,
    callers: Callers<E>,
) -> Joined<O::Done>
    requires shared { IsSync R.row × IsSync P.row × IsSync O.row × IsSend E.row }
    requires made { IsMadeFor O.plan run.now.heap.now.config }
    requires callers { AreCallersFrom E.ways.on E.made_for run.now.heap.now k callers }
    requires host { HasMade run.now.heap.now run.now.markers (k + 1) host }
    ensures joined { HaveWorked O.plan E.ways.on run.now.heap.now run.now.markers (replied_to callers.pass) k
        (drop k run.now.lists.now) result }
{
    let Callers { pass, engines } = callers;
    let CallerEngines { first, mut others } = engines;
    let Some(second) = others.pop() else {
        let worked = work_alone::<O, E, P, R>(rt, run, pace, k, pass, first);
        let joined = Joined {
            host,
            dones: Ok(Vec::new(run.alloc)),
        };
        return join_worked::<O, E>(run.heap, worked, joined);
    };
    let next_pass = host.caller(run.heap).finish();
    let next = Callers {
        pass: next_pass,
        engines: CallerEngines {
            first: second,
            others,
        },
    };
    let (worked, joined) = thread::join(
        rt,
        move || -> Worked<O::Done>
            requires shared { IsSync R.row × IsSync P.row × IsSend E.row }
            requires exists { k < run.now.heap.now.config.callers }
            requires made { IsMadeFor O.plan run.now.heap.now.config }
            requires pass { IsBetweenJobs E.ways.on run.now.heap.now k pass }
            requires engine { E.made_for first ≡ run.now.heap.now.config.pages }
            ensures worked { IfSome (slice_get run.entry.now.lists.now k) (λ jobs.
                HasWorked O.plan E.ways.on run.entry.now.heap.now (replied_to pass) k jobs.list.items result) }
        { work_alone::<O, E, P, R>(rt, run, pace, k, pass, first) },
        move || -> Joined<O::Done>
            requires shared { IsSync R.row × IsSync P.row × IsSend E.row }
            requires made { IsMadeFor O.plan run.now.heap.now.config }
            requires callers { AreCallersFrom E.ways.on E.made_for run.now.heap.now (k + 1) next }
            requires host { HasMade run.now.heap.now run.now.markers (k + 1 + 1) host }
            ensures joined { HaveWorked O.plan E.ways.on run.entry.now.heap.now run.entry.now.markers
                (replied_to next.pass) (k + 1) (drop (k + 1) run.entry.now.lists.now) result }
        { run_from::<O, E, P, R>(rt, run, pace, k + 1, host, next) },
    );
    join_worked::<O, E>(run.heap, worked, joined)
}
