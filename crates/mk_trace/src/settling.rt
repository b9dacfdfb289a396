//! What a call has freed and released is noted.
ghost use Rattle.std.specs.Prelude.{◌≡◌, ◌∷◌, ◌++◌, [], fold, map, if◌then◌else◌, IfOk, OnOk};
ghost use Rattle.mk_core.specs.{Counts.{ends, in_a_word}, History.left};
ghost use Rattle.mk_trace.specs.{Calls.CallerIsHome, Ledgers.{SettlesFreed, aged, ages_let_go, still_kept}};
ghost use Rattle.mk_trace.specs.Peaks.{with_one};
ghost use Rattle.mk_trace.specs.Calls.{HostOnlyLooks};

use crate::ledger::{Freed, FreedObject, count_age};
use crate::looking::{is_quarantined, look};
use mk_core::Word;
use mk_heap::{Heap, Host};
use mk_never::NoMemory;
use std::alloc::Global;
use std::mem;
use std::sync::Wait;

/// Keeps an object that is still quarantined, and counts the age of another.
fn keep_or_count(
    kept: &mut Vec<FreedObject>,
    ages: &mut Vec<(u64, u64)>,
    object: FreedObject,
    is_kept: bool,
) -> Result<(), NoMemory>
    ensures kept { OnOk result (kept.new.items ≡ kept.old.items ++ (if is_kept then object ∷ [] else [])) }
    ensures ages { OnOk result (ages.new.items
        ≡ (if is_kept then ages.old.items else with_one ages.old.items object.age)) }
{
    if is_kept {
        Ok(kept.push(object)?)
    } else {
        count_age(ages, object.age)
    }
}

/// Those of the objects that are still quarantined, after one more end. The others' ages are counted.
fn keep_quarantined<R: Wait>(
    rt: &R,
    alloc: Global,
    heap: &Heap,
    host: &mut Host,
    found: &[FreedObject],
    ages: &mut Vec<(u64, u64)>,
) -> Result<Vec<FreedObject>, NoMemory>
    requires home { CallerIsHome heap.now host.old }
    ensures home { CallerIsHome heap.now host.new }
    ensures looks { HostOnlyLooks heap.now.config host.old.pass.seen host.new.pass.seen }
    ensures kept { IfOk result (λ kept. kept.items
        ≡ still_kept (left heap.now.config host.old.pass.seen).now.words.freed (map aged found.now)) }
    ensures ages { IfOk result (λ kept. ages.new.items ≡ fold with_one ages.old.items
        (ages_let_go (left heap.now.config host.old.pass.seen).now.words.freed (map aged found.now))) }
{
    let mut kept = Vec::new(alloc);
    for object in found {
        let is_kept = is_quarantined(rt, heap, host, object.cell);
        keep_or_count(&mut kept, ages, object.aged(), is_kept)?;
    }
    Ok(kept)
}

/// Takes what was released out of the quarantine, where a cycle has ended.
pub(crate) fn settle<R: Wait>(
    rt: &R,
    alloc: Global,
    heap: &Heap,
    host: &mut Host,
    freed: &mut Freed,
) -> Result<(), NoMemory>
    requires home { CallerIsHome heap.now host.old }
    ensures home { CallerIsHome heap.now host.new }
    ensures looks { HostOnlyLooks heap.now.config host.old.pass.seen host.new.pass.seen }
    ensures settles { OnOk result (SettlesFreed (left heap.now.config host.old.pass.seen).now.words.freed
        (in_a_word (ends host.old.pass.seen)) freed.old freed.new) }
{
    let count = look(rt, heap, host, Word::Cycles);
    if count == freed.ends {
        return Ok(());
    }
    let found = mem::replace(&mut freed.quarantine, Vec::new(alloc));
    let kept = keep_quarantined(rt, alloc, heap, host, found.as_slice(), &mut freed.ages)?;
    freed.keep(kept, count);
    Ok(())
}
