//! A whole run: a heap of two callers, each of which creates an object of its own on a thread of its own.
ghost use Rattle.std.specs.Prelude.{◌≡◌, ◌≤◌, ◌∷◌, [], IfOk, true};
ghost use Rattle.mk_never.specs.Types.{kinds_of};
ghost use Rattle.mk_never.specs.declared.types.Kind.TheVariants.{Num as Number};
ghost use Rattle.mk_core.specs.Moments.{IsWithinLimits};
ghost use Rattle.mk_heap.specs.{Below.Words.States.has_over, Hosts.{HasCounts, IsWhole, config_of, history_of}};

use crate::outcomes::{Loaded, Unfinished};
use crate::side_by_side::numbers_at_once;
use mk_core::Config;
use mk_heap::lower::cycles::Engine;
use mk_heap::{Heap, Report};
use mk_never::NoMemory;
use std::alloc::Global;
use std::sync::Wait;
use std::thread::Threads;

/// What the two callers loaded, and the report of their heap.
#[derive(Drop)]
pub struct TwoNumbers {
    pub first: Result<u64, Unfinished>,
    pub second: Result<u64, Unfinished>,
    pub report: Report,
}

/// Two callers at once, each on a thread of its own, load the number that they stored in an object of this type. When
/// both are joined, all is over, and the heap is closed.
pub fn two_numbers<E: Engine + Send, R: Threads + Wait + Sync>(
    rt: &R,
    alloc: Global,
    config: &Config,
    ty: u64,
) -> Result<TwoNumbers, NoMemory>
    requires limits { IsWithinLimits config.now }
    requires two { 2 ≤ config.now.callers }
    requires number { kinds_of config.now.types ty ≡ Number ∷ [] }
    ensures first { IfOk result (λ ran. IfOk ran.first (λ loaded. loaded ≡ 1)) }
    ensures second { IfOk result (λ ran. IfOk ran.second (λ loaded. loaded ≡ 2)) }
    ensures config { IfOk result (λ ran. config_of ran.report ≡ config.now) }
    ensures whole { IfOk result (λ ran. IsWhole config.now (history_of ran.report)) }
    ensures counts { IfOk result (λ ran. HasCounts config.now (history_of ran.report) ran.report) }
    ensures over { IfOk result (λ ran. has_over (history_of ran.report) ≡ true) }
{
    let for_first = E::make(alloc, config.pages)?;
    let for_second = E::make(alloc, config.pages)?;
    let mut engine = E::make(alloc, config.pages)?;
    let (heap, mut host) = Heap::new(alloc, config)?;
    let a = host.caller(&heap).finish();
    let b = host.caller(&heap).finish();
    let (one, other) = numbers_at_once(rt, heap.words(), a, for_first, b, for_second, 0, ty);
    host.join_caller(&heap, one.pass);
    host.join_caller(&heap, other.pass);
    host.over(rt, &heap, &mut engine);
    Ok(TwoNumbers {
        first: one.number,
        second: other.number,
        report: heap.close(host),
    })
}
