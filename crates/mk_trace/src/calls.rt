//! The calls of the one caller of a heap. Between them the host has its seat, and so has seen all.
ghost use Rattle.std.specs.Prelude.{◌≡◌, ◌+◌, ◌<◌, ◌≤◌, IfOk, false};
ghost use Rattle.mk_core.specs.{Counts.ends, History.never_behind};
ghost use Rattle.mk_trace.specs.{Calls.{CallerIsHome, MayCome, MayBePlayed, Calls, PlaysEvent}, Playing.StayExact};
ghost use Rattle.mk_trace.specs.{Ledgers.{FreesItsSlot, FreesSlot}, Calls.{DoesCall, IsBetweenCalls}};
ghost use Rattle.mk_trace.specs.Grammar.{slot_of};

use crate::looking::{look, object_to_free};
use crate::operations::{first_op, is_full_answer, later_ops};
use crate::player::Player;
use crate::settling::settle;
use crate::trace::TraceEvent;
use mk_check::is_refusal;
use mk_core::{Answer, Word, is_under_turn};
use mk_heap::lower::cycles::Engine;
use mk_heap::{Heap, Host, answer_to};
use mk_never::{NoMemory, Op};
use std::alloc::Global;
use std::sync::Wait;
use std::thread::Threads;

/// Carries out an operation of the caller, and returns its answer.
fn call<E: Engine, R: Threads + Wait + Sync>(
    rt: &R,
    heap: &Heap,
    host: &mut Host,
    engine: &mut E,
    op: Op,
) -> Answer
    requires home { CallerIsHome heap.now host.old }
    requires admitted { MayCome heap.now.config host.old.pass.seen op }
    requires made_for { E.made_for engine.old ≡ heap.now.config.pages }
    ensures home { CallerIsHome heap.now host.new }
    ensures made_for { E.made_for engine.new ≡ E.made_for engine.old }
    ensures does { DoesCall E.ways.on heap.now.config host.old.pass.seen op result host.new.pass.seen }
    ensures exact { E.ways.on ≡ false → E.ways.sweeps ≡ false
        → StayExact heap.now.config host.old.pass.seen host.new.pass.seen }
{
    let mut caller = host.caller_again(heap, 0);
    let answer = answer_to(rt, &mut caller, engine, op);
    host.join_caller(heap, caller.finish());
    answer
}

/// Carries out an operation of the caller, returns its answer, and notes what is held and quarantined then. Only one
/// under the turn changes that, or ends a cycle, so the ledger stays as it is after any other. A Free's register points
/// to what the slot points to.
fn answer<E: Engine, R: Threads + Wait + Sync>(
    rt: &R,
    alloc: Global,
    heap: &Heap,
    player: &mut Player<E>,
    slot: u64,
    op: Op,
) -> Result<Answer, NoMemory>
    requires slot { slot < 64 }
    requires points { FreesSlot (never_behind heap.now.config player.old.host.pass.seen) slot op }
    requires off { E.ways.on ≡ false }
    requires unswept { E.ways.sweeps ≡ false }
    requires between { IsBetweenCalls E.made_for heap.now player.old }
    requires few { ends player.old.host.pass.seen < 18446744073709551615 }
    requires admitted { MayCome heap.now.config player.old.host.pass.seen op }
    ensures between { IfOk result (λ told. IsBetweenCalls E.made_for heap.now player.new) }
    ensures calls { IfOk result (λ told.
        Calls heap.now.config player.old.host.pass.seen op told player.new.host.pass.seen) }
    ensures ends { IfOk result (λ told. ends player.new.host.pass.seen ≤ ends player.old.host.pass.seen + 1) }
    ensures exact { IfOk result (λ told.
        StayExact heap.now.config player.old.host.pass.seen player.new.host.pass.seen) }
{
    if is_under_turn(op) {
        let freed = object_to_free(rt, heap, &mut player.host, slot, op);
        let told = call(rt, heap, &mut player.host, &mut player.engine, op);
        let now = look(rt, heap, &mut player.host, Word::Held);
        player.ledger.held = player.ledger.held.max(now);
        player.ledger.freed.note(freed)?;
        settle(rt, alloc, heap, &mut player.host, &mut player.ledger.freed)?;
        Ok(told)
    } else {
        Ok(call(rt, heap, &mut player.host, &mut player.engine, op))
    }
}

/// Carries out the operations of an event, and reports whether one of them is refused.
pub(crate) fn refuses<E: Engine, R: Threads + Wait + Sync>(
    rt: &R,
    alloc: Global,
    heap: &Heap,
    player: &mut Player<E>,
    event: TraceEvent,
) -> Result<bool, NoMemory>
    requires slot { slot_of event < 64 }
    requires off { E.ways.on ≡ false }
    requires unswept { E.ways.sweeps ≡ false }
    requires between { IsBetweenCalls E.made_for heap.now player.old }
    requires few { ends player.old.host.pass.seen + 6 < 18446744073709551615 }
    requires admitted { MayBePlayed heap.now.config player.old.host.pass.seen event }
    requires frees { FreesItsSlot (never_behind heap.now.config player.old.host.pass.seen) event }
    ensures between { IfOk result (λ refused. IsBetweenCalls E.made_for heap.now player.new) }
    ensures plays { IfOk result (λ refused.
        PlaysEvent heap.now.config player.old.host.pass.seen event refused player.new.host.pass.seen) }
    ensures ends { IfOk result (λ refused. ends player.new.host.pass.seen ≤ ends player.old.host.pass.seen + 6) }
    ensures exact { IfOk result (λ refused.
        StayExact heap.now.config player.old.host.pass.seen player.new.host.pass.seen) }
{
    let slot = event.slot();
    let first = answer(rt, alloc, heap, player, slot, first_op(event))?;
    let mut refused = is_refusal(first);
    let ops = later_ops(alloc, is_full_answer(first), event)?;
    for op in ops.iter() {
        let later = answer(rt, alloc, heap, player, slot, *op)?;
        let also = is_refusal(later);
        refused |= also;
    }
    Ok(refused)
}
