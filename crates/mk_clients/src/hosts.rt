//! Clients: heaps from first to last, of which nothing is asked but their configuration.
ghost use Rattle.std.specs.Prelude.{◌≡◌, ◌<◌, ◌≤◌, IfOk, true};
ghost use Rattle.mk_core.specs.Moments.{IsWithinLimits};
ghost use Rattle.mk_heap.specs.Below.Words.States.{has_over};
ghost use Rattle.mk_heap.specs.Hosts.{IsPassOf, history_of, config_of, IsWhole, HasCounts};

use mk_core::Config;
use mk_heap::lower::callers::Caller;
use mk_heap::lower::cycles::Engine;
use mk_heap::{Heap, Report};
use mk_never::NoMemory;
use std::alloc::Global;
use std::sync::Wait;
use std::thread::Threads;

/// Clears a register, if the caller's gate isn't held.
fn clear(caller: &mut Caller, d: u8)
    requires home { caller.old.home ≡ true }
    requires whole { IsPassOf caller.old.pass.table caller.old.pass }
    requires register { d < 8 }
    ensures home { caller.new.home ≡ true }
    ensures pass { caller.new.pass ≡ record caller.old.pass { seen = caller.new.pass.seen } }
{
    let _ = caller.clear(d);
}

/// Two callers make a call each, and are joined.
pub(crate) fn two_callers(alloc: Global, config: &Config) -> Result<Report, NoMemory>
    requires limits { IsWithinLimits config.now }
    requires two { 2 ≤ config.now.callers }
    ensures config { IfOk result (λ report. config_of report ≡ config.now) }
    ensures whole { IfOk result (λ report. IsWhole config.now (history_of report)) }
    ensures counts { IfOk result (λ report. HasCounts config.now (history_of report) report) }
{
    let (heap, mut host) = Heap::new(alloc, config)?;
    let mut first = host.caller(&heap);
    let mut second = host.caller(&heap);
    clear(&mut first, 0);
    clear(&mut second, 7);
    host.join_caller(&heap, second.finish());
    host.join_caller(&heap, first.finish());
    Ok(heap.close(host))
}

/// A caller makes a call, the host runs a cycle, and the caller makes another call; when it is joined, all is over.
pub(crate) fn cycle_beside_a_caller<E: Engine, R: Threads + Wait + Sync>(
    rt: &R,
    alloc: Global,
    config: &Config,
) -> Result<Report, NoMemory>
    requires limits { IsWithinLimits config.now }
    ensures config { IfOk result (λ report. config_of report ≡ config.now) }
    ensures whole { IfOk result (λ report. IsWhole config.now (history_of report)) }
    ensures counts { IfOk result (λ report. HasCounts config.now (history_of report) report) }
    ensures over { IfOk result (λ report. has_over (history_of report) ≡ true) }
{
    let (heap, mut host) = Heap::new(alloc, config)?;
    let mut engine = E::make(alloc, config.pages)?;
    let mut caller = host.caller(&heap);
    clear(&mut caller, 0);
    host.cycle(rt, &heap, &mut engine);
    clear(&mut caller, 0);
    host.join_caller(&heap, caller.finish());
    host.over(rt, &heap, &mut engine);
    Ok(heap.close(host))
}
