//! The operations of a trace's events.
ghost use Rattle.std.specs.Prelude.{◌≡◌, ◌∷◌, [], ◌<◌, drop, IfOk, false};
ghost use Rattle.mk_core.specs.{Calls.is_under_turn, Counts.is_full_answer};
ghost use Rattle.mk_trace.specs.Grammar.{slot_of};
ghost use Rattle.mk_never.specs.declared.operations.Op.TheVariants as op;
ghost use Rattle.mk_trace.specs.Playing as spec;
ghost use Rattle.mk_trace.specs.declared.trace.TraceEvent.TheVariants as trace_event;

use crate::trace::TraceEvent;
use mk_core::Answer;
use mk_never::{NoMemory, Op};
use std::alloc::Global;

/// The first operation of an event. A New isn't known to be full yet.
pub(crate) fn first_op(event: TraceEvent) -> Op
    requires slot { slot_of event < 64 }
    ensures { spec.ops_of false event ≡ result ∷ drop 1 (spec.ops_of false event) }
{
    match event {
        TraceEvent::A(slot) | TraceEvent::K(slot) => Op::New {
            d: 0,
            ty: slot,
            full: false,
        },
        TraceEvent::F(slot) | TraceEvent::W { slot, .. } => get_global(0, slot),
        TraceEvent::C(slot) => set_global(slot),
    }
}

/// Those after it, where its New was full, or wasn't.
pub(crate) fn later_ops(alloc: Global, full: bool, event: TraceEvent) -> Result<Vec<Op>, NoMemory>
    requires slot { slot_of event < 64 }
    ensures { IfOk result (λ ops. ops.items ≡ drop 1 (spec.ops_of full event)) }
{
    match event {
        TraceEvent::A(_) if full => list(alloc, [Op::Clear { d: 0 }]),
        TraceEvent::A(slot) => list(alloc, [set_global(slot), Op::Clear { d: 0 }]),
        TraceEvent::K(_) if full => list(alloc, [Op::Clear { d: 0 }, Op::Clear { d: 1 }]),
        TraceEvent::K(slot) => link_ops(alloc, slot),
        TraceEvent::F(_) => list(alloc, [Op::Free { p: 0 }, Op::Clear { d: 0 }]),
        TraceEvent::C(_) => Ok(Vec::new(alloc)),
        TraceEvent::W { index, value, .. } => {
            let set = Op::SetNum {
                q: 0,
                i: index,
                n: value,
            };
            list(alloc, [set, Op::Clear { d: 0 }])
        }
    }
}

fn list<const N: usize>(alloc: Global, ops: [Op; N]) -> Result<Vec<Op>, NoMemory>
    ensures { IfOk result (λ list. list.items ≡ ops.entry) }
{
    Ok(Vec::from_array(alloc, ops)?)
}

fn get_global(d: u8, slot: u64) -> Op
    requires { slot < 64 }
    ensures { result ≡ op.GetGlobal d slot }
{
    Op::GetGlobal { d, g: slot as u8 }
}

fn set_global(slot: u64) -> Op
    requires { slot < 64 }
    ensures { result ≡ op.SetGlobal slot 0 }
{
    Op::SetGlobal {
        g: slot as u8,
        p: 0,
    }
}

/// Those after a New whose object is linked to the slot's old one.
fn link_ops(alloc: Global, slot: u64) -> Result<Vec<Op>, NoMemory>
    requires { slot < 64 }
    ensures { IfOk result (λ ops. ops.items ≡ drop 1 (spec.ops_of false (trace_event.K slot))) }
{
    let ops = [
        get_global(1, slot),
        Op::SetPtr { q: 0, i: 0, p: 1 },
        set_global(slot),
        Op::Clear { d: 0 },
        Op::Clear { d: 1 },
    ];
    list(alloc, ops)
}

/// Whether nothing fits.
pub(crate) fn is_full_answer(answer: Answer) -> bool
    ensures { result ≡ is_full_answer answer }
{
    matches!(answer, Answer::Full)
}
