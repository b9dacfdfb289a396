//! The heap that a trace is played on.
ghost use Rattle.std.specs.{Prelude.{◌≡◌, ◌≤◌, [], ◌∷◌, ◌++◌, length, IfOk, OnOk}, List.range_with_len};
ghost use Rattle.mk_core.specs.Moments.{IsWithinLimits};
ghost use Rattle.mk_trace.specs.Playing as spec;

use crate::trace::Trace;
use mk_core::{Config, GlobalTable};
use mk_never::{Kind, NoMemory, TypeTable};
use std::alloc::Global;

/// A heap of one caller, whose globals are the trace's slots.
pub(crate) fn config_of(alloc: Global, trace: &Trace) -> Result<Config, NoMemory>
    ensures config { IfOk result (λ config. config ≡ spec.config_of trace.now) }
    ensures limits { IfOk result IsWithinLimits }
{
    let slots = trace.slots();
    Ok(Config {
        pages: trace.pages(),
        resident: trace.resident(),
        callers: 1,
        markers: 0,
        types: slot_types(alloc, slots)?,
        globals: slot_globals(alloc, slots.len() as u64)?,
    })
}

/// The types of the slots' objects.
fn slot_types(alloc: Global, slots: &[u64]) -> Result<TypeTable, NoMemory>
    ensures { IfOk result (λ types. types ≡ spec.types_from 0 slots.now) }
{
    let mut types = TypeTable::new(alloc);
    for (slot, words) in slots.iter().enumerate() {
        types.add(slot_type(alloc, slot as u64, *words)?)?;
    }
    Ok(types)
}

/// The type of a slot's objects, which have this many words.
fn slot_type(alloc: Global, slot: u64, words: u64) -> Result<Vec<Kind>, NoMemory>
    ensures { IfOk result (λ kinds. kinds.items ≡ spec.slot_type slot words) }
{
    let mut kinds = Vec::new(alloc);
    let link = Kind::To {
        ty: slot,
        offset: 0,
    };
    push(&mut kinds, link)?;
    for _word in 1..words {
        push(&mut kinds, Kind::Num)?;
    }
    Ok(kinds)
}

fn push(kinds: &mut Vec<Kind>, kind: Kind) -> Result<(), NoMemory>
    ensures { OnOk result (kinds.new.items ≡ kinds.old.items ++ kind ∷ []) }
{
    Ok(kinds.push(kind)?)
}

/// This many globals, each of the type of its own number.
fn slot_globals(alloc: Global, count: u64) -> Result<GlobalTable, NoMemory>
    requires { count ≤ 64 }
    ensures { IfOk result (λ globals. globals ≡ range_with_len 0 count) }
{
    let mut globals = GlobalTable::new(alloc);
    for slot in 0..count {
        globals.add(slot)?;
    }
    Ok(globals)
}
