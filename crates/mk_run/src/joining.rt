//! Scripts on threads of their own, and the host that joins them.
ghost use Rattle.std.specs.{Prelude.◌+◌, Thread.IsSync};
ghost use Rattle.mk_check.specs.Laws.{IsScript};
ghost use Rattle.mk_heap.specs.Hosts.{HasMade, IsFirstPass};
ghost use Rattle.mk_run.specs.{Joining.{AreJoined, HasRun}, Keeping.{ScriptsKeep, SeatKeeps}};
ghost use Rattle.mk_run.specs.Running.{AreReadyFrom, IsReadyScript};
ghost use Rattle.mk_core.specs.declared.events.Seat.TheVariants as seat;
ghost use denote.Param.Send.{IsSend};

use crate::ready::ReadyScript;
use crate::runs::Run;
use crate::scripts::run_script;
use mk_check::Text;
use mk_heap::lower::callers::Caller;
use mk_heap::lower::cycles::Engine;
use mk_heap::lower::words::Pass;
use mk_heap::{Host, Pace, with_first};
use mk_never::NoMemory;
use std::collections::VecDeque;
use std::sync::Wait;
use std::thread;
use std::thread::Threads;

/// What the thread of a script returns.
#[derive(Drop)]
struct Ran {
    pass: Pass,
    text: Result<Text, NoMemory>,
}

/// The host of scripts that are joined, and their texts in order.
#[derive(Drop)]
pub(crate) struct Joined {
    pub(crate) host: Host,
    pub(crate) texts: Result<Vec<Text>, NoMemory>,
}

/// The work of a script's thread.
fn run_alone<E: Engine, P: Pace, R: Threads + Wait + Sync>(
    rt: &R,
    run: &Run,
    pace: &P,
    k: u64,
    pass: Pass,
    ready: ReadyScript<E>,
) -> Ran
    requires script { IsScript run.now.program.now k }
    requires pass { IsFirstPass run.now.heap.now k pass }
    requires ready { IsReadyScript E.made_for run.now.program.now run.now.heap.now.config.pages k ready }
    ensures ran { HasRun E.ways.on run.now.program.now run.now.heap.now k result }
    ensures keeps { SeatKeeps E.ways run.now.heap.now.config (seat.Caller k)
        result.pass.seen }
{
    let mut caller = Caller::new(run.heap.words(), pass);
    let text = run_script(rt, run.alloc, &mut caller, ready, run.program, k, pace);
    Ran {
        pass: caller.finish(),
        text,
    }
}

/// Runs the scripts from `k` on, each on a thread of its own, and joins them. A script whose thread can't be started
/// runs here.
pub(crate) fn run_from<E: Engine + Send, P: Pace + Sync, R: Threads + Wait + Sync>(
    rt: &R,
    run: &Run,
    pace: &P,
    k: u64,
    mut host: Host,
    mut scripts: VecDeque<ReadyScript<E>>,
) -> Joined
    requires shared { IsSync R.row × IsSync P.row × IsSend E.row }
    requires host { HasMade run.now.heap.now run.now.markers k host }
    requires scripts { AreReadyFrom E.made_for run.now.program.now run.now.heap.now.config k scripts.items }
    ensures joined { AreJoined E.ways.on run.now.program.now run.now.heap.now k run.now.markers result }
    ensures keep { ScriptsKeep E.ways run.now.program.now k run.now.heap.now.config
        result.host.pass.seen }
{
    let Some(ready) = scripts.pop_front() else {
        return Joined {
            host,
            texts: Ok(Vec::new(run.alloc)),
        };
    };
    let pass = host.caller(run.heap).finish();
    let (ran, joined) = thread::join(
        rt,
        move || -> Ran
            requires shared { IsSync R.row × IsSync P.row × IsSend E.row }
            requires script { IsScript run.now.program.now k }
            requires pass { IsFirstPass run.now.heap.now k pass }
            requires ready { IsReadyScript E.made_for run.now.program.now run.now.heap.now.config.pages k ready }
            ensures ran { HasRun E.ways.on run.entry.now.program.now run.entry.now.heap.now k result }
            ensures keeps { SeatKeeps E.ways run.entry.now.heap.now.config
                (seat.Caller k) result.pass.seen }
        { run_alone(rt, run, pace, k, pass, ready) },
        move || -> Joined
            requires shared { IsSync R.row × IsSync P.row × IsSend E.row }
            requires host { HasMade run.now.heap.now run.now.markers (k + 1) host }
            requires scripts { AreReadyFrom E.made_for run.now.program.now run.now.heap.now.config (k + 1)
                scripts.items }
            ensures joined { AreJoined E.ways.on run.entry.now.program.now run.entry.now.heap.now (k + 1)
                run.entry.now.markers result }
            ensures keep { ScriptsKeep E.ways run.entry.now.program.now (k + 1)
                run.entry.now.heap.now.config result.host.pass.seen }
        { run_from(rt, run, pace, k + 1, host, scripts) },
    );
    let Ran { pass, text } = ran;
    let Joined { mut host, texts } = joined;
    host.join_caller(run.heap, pass);
    Joined {
        host,
        texts: with_first(text, texts),
    }
}
