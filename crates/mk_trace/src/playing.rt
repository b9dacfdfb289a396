//! Playing traces.
ghost use Rattle.std.specs.Prelude.{◌≡◌, ◌+◌, ◌<◌, [], false, if◌then◌else◌, IfOk};
ghost use Rattle.mk_core.specs.{Moments.IsWithinLimits, Counts.ends};
ghost use Rattle.mk_trace.specs.{Calls.{CallerIsHome, SameCalls, HasPlayed}, Playing.StayExact};
ghost use Rattle.mk_trace.specs.{Calls.IsBetweenCalls, Playing.{history_of, IsPlayed, ArePeaks}};
ghost use Rattle.mk_trace.specs.Playing as spec;

use crate::calls::refuses;
use crate::configs::config_of;
use crate::ledger::Ledger;
use crate::peaks::Peaks;
use crate::player::Player;
use crate::trace::Trace;
use mk_core::Config;
use mk_heap::lower::cycles::{Engine, StopEngine};
use mk_heap::{Heap, Host};
use mk_never::NoMemory;
use std::alloc::Global;
use std::sync::Wait;
use std::thread::Threads;

/// A heap of one caller, which was made and joined.
fn opened(alloc: Global, config: &Config) -> Result<(Heap, Host), NoMemory>
    requires limits { IsWithinLimits config.now }
    requires one { config.now.callers ≡ 1 }
    ensures config { IfOk result (λ made. made.0.config ≡ config.now) }
    ensures home { IfOk result (λ made. CallerIsHome made.0 made.1) }
    ensures no_call { IfOk result (λ made. SameCalls config.now [] made.1.pass.seen) }
    ensures empty { IfOk result (λ made. made.1.pass.seen ≡ []) }
{
    let (heap, mut host) = Heap::new(alloc, config)?;
    let caller = host.caller(&heap).finish();
    host.join_caller(&heap, caller);
    Ok((heap, host))
}

/// This many refused events, and this one, if it is refused.
fn with_refusal(refused: u64, is_refused: bool) -> u64
    requires { refused < 18446744073709551615 }
    ensures { result ≡ (if is_refused then refused + 1 else refused) }
{
    if is_refused { refused + 1 } else { refused }
}

/// Plays the events of a trace, and reports how many are refused.
fn play_events<E: Engine, R: Threads + Wait + Sync>(
    rt: &R,
    alloc: Global,
    heap: &Heap,
    trace: &Trace,
    player: &mut Player<E>,
) -> Result<u64, NoMemory>
    requires config { heap.now.config ≡ spec.config_of trace.now }
    requires off { E.ways.on ≡ false }
    requires unswept { E.ways.sweeps ≡ false }
    requires between { IsBetweenCalls E.made_for heap.now player.old }
    requires none_ended { ends player.old.host.pass.seen ≡ 0 }
    requires no_call { SameCalls heap.now.config [] player.old.host.pass.seen }
    ensures between { IfOk result (λ refused. IsBetweenCalls E.made_for heap.now player.new) }
    ensures played { IfOk result (λ refused. HasPlayed trace.now trace.now.events refused player.new.host.pass.seen) }
    ensures exact { IfOk result (λ refused.
        StayExact heap.now.config player.old.host.pass.seen player.new.host.pass.seen) }
{
    let events = trace.events();
    let mut refused = 0;
    for event in events {
        let is_refused = refuses(rt, alloc, heap, player, *event)?;
        refused = with_refusal(refused, is_refused);
    }
    Ok(refused)
}

/// Plays a trace on a heap of one caller, with cycles by this engine.
fn play_by<E: Engine, R: Threads + Wait + Sync>(
    rt: &R,
    alloc: Global,
    trace: &Trace,
) -> Result<Peaks, NoMemory>
    requires off { E.ways.on ≡ false }
    requires unswept { E.ways.sweeps ≡ false }
    ensures played { IfOk result (λ peaks. IsPlayed trace.now (history_of peaks)) }
    ensures peaks { IfOk result (λ peaks. ArePeaks trace.now (history_of peaks) peaks) }
{
    let config = config_of(alloc, trace)?;
    let engine = E::make(alloc, config.pages)?;
    let (heap, host) = opened(alloc, &config)?;
    let mut player = Player {
        host,
        engine,
        ledger: Ledger::new(alloc),
    };
    let refused = play_events(rt, alloc, &heap, trace, &mut player)?;
    let Player { host, ledger, .. } = player;
    let held = ledger.held_at_most();
    let report = heap.close(host);
    Ok(Peaks {
        events: trace.events().len() as u64,
        refused,
        held,
        quarantined: ledger.freed.quarantined.most,
        reserved: ledger.freed.reserved.most,
        cycles: report.cycles,
        ages: ledger.freed.ages,
        report,
    })
}

/// Plays a trace on a heap of one caller, on the calling thread, with all marking in the stop. Its events go by the
/// answers that the heap gives.
pub fn play<R: Threads + Wait + Sync>(
    rt: &R,
    alloc: Global,
    trace: &Trace,
) -> Result<Peaks, NoMemory>
    ensures played { IfOk result (λ peaks. IsPlayed trace.now (history_of peaks)) }
    ensures peaks { IfOk result (λ peaks. ArePeaks trace.now (history_of peaks) peaks) }
{
    play_by::<StopEngine, R>(rt, alloc, trace)
}
