//! What the tests begin with: a heap that nobody has used, or its words alone, and the passes of its two callers.
ghost use Rattle.std.specs.Prelude.{◌≡◌, ◌<◌, length, IfOk};
ghost use Rattle.mk_core.specs.Moments.{IsWithinLimits};
ghost use Rattle.mk_run.specs.Below.Heaps.Hosts.{first_host, with_caller_made};
ghost use Rattle.mk_heap_tests.specs.HeldObjects.{AreOfTwo, IsHostsPass, IsPassFor};

use mk_core::{Config, Seat};
use mk_never::NoMemory;
use mk_run::lower::heaps::{Heap, Host, Report};
use mk_run::lower::words::{Pass, Words};
use std::alloc::Global;

/// A heap, its host, and the passes of its two callers.
pub(crate) type TwoCallers = (Heap, Host, Pass, Pass);

pub(crate) fn two_callers(alloc: Global, config: &Config) -> Result<TwoCallers, NoMemory>
    requires limits { IsWithinLimits config.now }
    requires two { config.now.callers ≡ 2 }
    requires ty { 0 < length config.now.types }
    ensures config { IfOk result (λ made. made.0.config ≡ config.now) }
    ensures host { IfOk result (λ made. made.1 ≡ with_caller_made (with_caller_made (first_host made.0))) }
    ensures callers { IfOk result (λ made. AreOfTwo made.0 made.2 made.3) }
{
    let (heap, mut host) = Heap::new(alloc, config)?;
    let first = host.caller(&heap).finish();
    let second = host.caller(&heap).finish();
    Ok((heap, host, first, second))
}

/// Joins both callers, and ends the heap.
pub(crate) fn close(heap: Heap, host: Host, first: Pass, second: Pass) -> Report
    requires host { host ≡ with_caller_made (with_caller_made (first_host heap)) }
    requires first { IsPassFor heap 0 first }
    requires second { IsPassFor heap 1 second }
{
    let mut host = host;
    host.join_caller(&heap, second);
    host.join_caller(&heap, first);
    heap.close(host)
}

/// The words of a heap, the host's pass, and two that were split off it.
pub(crate) type Split = (Words, Pass, Pass, Pass);

/// The passes are those of its two callers.
pub(crate) fn split_callers(alloc: Global, config: &Config) -> Result<Split, NoMemory>
    requires limits { IsWithinLimits config.now }
    requires two { config.now.callers ≡ 2 }
    requires ty { 0 < length config.now.types }
    ensures host { IfOk result (λ made. IsHostsPass made.0 made.1) }
    ensures callers { IfOk result (λ made. AreOfTwo made.0 made.2 made.3) }
    ensures config { IfOk result (λ made. made.0.config ≡ config.now) }
{
    let (words, mut host) = Words::new(alloc, config)?;
    let first = Words::split(&words, &mut host, Seat::Caller(0));
    let second = Words::split(&words, &mut host, Seat::Caller(1));
    Ok((words, host, first, second))
}
