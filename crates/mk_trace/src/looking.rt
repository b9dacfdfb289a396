//! What the host finds in the words of a heap between calls.
ghost use Rattle.std.specs.Prelude.{◌≡◌, ◌<◌, true, false, option_map};
ghost use Rattle.mk_never.specs.NeverHeap.{global_at};
ghost use Rattle.mk_core.specs.{Cells.{is_freed, pointed_cell}, Counts.{ends, in_a_word}, History.{left, never_behind}};
ghost use Rattle.mk_core.specs.Conditions.{is_word};
ghost use Rattle.mk_trace.specs.{Calls.{CallerIsHome, held_behind}, Peaks.IsBetweenCycles};
ghost use Rattle.mk_trace.specs.Ledgers.{number_freed, unfreed, FreesSlot, freed_object_of};
ghost use Rattle.mk_trace.specs.Calls.{HostOnlyLooks, word_behind};
ghost use Rattle.mk_core.specs.declared.events.Word.TheVariants as table_word;
ghost use Rattle.mk_heap.specs.Below.Cycles.EngineLaw.{is_register};

use crate::ledger::FreedObject;
use mk_core::{QuarantineWord, Word, has_bit, words_under};
use mk_geom::{Cell, heap_page, lookup};
use mk_heap::{Heap, Host};
use mk_never::Op;
use std::sync::Wait;

/// What a word is. It is no call.
pub(crate) fn look<R: Wait>(rt: &R, heap: &Heap, host: &mut Host, word: Word) -> u64
    requires home { CallerIsHome heap.now host.old }
    requires word { is_word heap.now.config word ≡ true }
    requires no_register { is_register word ≡ false }
    ensures home { CallerIsHome heap.now host.new }
    ensures looks { HostOnlyLooks heap.now.config host.old.pass.seen host.new.pass.seen }
    ensures tells { result ≡ word_behind heap.now.config host.old.pass.seen word }
    ensures holds { word ≡ table_word.Held → result ≡ held_behind heap.now.config host.old.pass.seen }
    ensures counts { word ≡ table_word.Cycles → result ≡ in_a_word (ends host.old.pass.seen) }
{
    let found = host.tell(rt, heap, word);
    host.is_in_order();
    found
}

/// The cell that an address points into.
fn cell_at<R: Wait>(rt: &R, heap: &Heap, host: &mut Host, address: u64) -> Option<Cell>
    requires home { CallerIsHome heap.now host.old }
    ensures home { CallerIsHome heap.now host.new }
    ensures looks { HostOnlyLooks heap.now.config host.old.pass.seen host.new.pass.seen }
    ensures finds { result
        ≡ pointed_cell heap.now.config.pages (left heap.now.config host.old.pass.seen).now.words.pages address }
{
    let pages = heap.words().pages();
    let page = heap_page(pages, address)?;
    let header = look(rt, heap, host, Word::Head(page));
    lookup(pages, header, address)
}

/// Whether the cell's object is freed and not released.
pub(crate) fn is_quarantined<R: Wait>(rt: &R, heap: &Heap, host: &mut Host, cell: Cell) -> bool
    requires home { CallerIsHome heap.now host.old }
    ensures home { CallerIsHome heap.now host.new }
    ensures looks { HostOnlyLooks heap.now.config host.old.pass.seen host.new.pass.seen }
    ensures finds { result ≡ is_freed (left heap.now.config host.old.pass.seen).now.words cell }
{
    if cell.page < heap.words().pages() {
        let freed = look(rt, heap, host, Word::Quar(cell.page));
        has_bit(QuarantineWord::of(freed).freed, cell.index)
    } else {
        false
    }
}

/// The object that a slot points to, if it isn't freed yet.
fn object_of_slot<R: Wait>(rt: &R, heap: &Heap, host: &mut Host, slot: u64) -> Option<FreedObject>
    requires slot { slot < 64 }
    requires home { CallerIsHome heap.now host.old }
    requires idle { IsBetweenCycles heap.now.config host.old.pass.seen }
    ensures home { CallerIsHome heap.now host.new }
    ensures looks { HostOnlyLooks heap.now.config host.old.pass.seen host.new.pass.seen }
    ensures finds { result ≡ option_map
        (freed_object_of heap.now.config (left heap.now.config host.old.pass.seen).allocations)
        (unfreed (never_behind heap.now.config host.old.pass.seen)
        (global_at (never_behind heap.now.config host.old.pass.seen) slot)) }
{
    let address = look(rt, heap, host, Word::Global(slot));
    match cell_at(rt, heap, host, address) {
        Some(cell) => {
            let header = look(rt, heap, host, Word::Head(cell.page));
            if is_quarantined(rt, heap, host, cell) {
                None
            } else {
                Some(FreedObject::new(cell, words_under(header)))
            }
        }
        None => None,
    }
}

/// The object that an operation is to free, if it frees one. A Free's register points to what the slot points to.
pub(crate) fn object_to_free<R: Wait>(
    rt: &R,
    heap: &Heap,
    host: &mut Host,
    slot: u64,
    op: Op,
) -> Option<FreedObject>
    requires slot { slot < 64 }
    requires points { FreesSlot (never_behind heap.now.config host.old.pass.seen) slot op }
    requires home { CallerIsHome heap.now host.old }
    requires idle { IsBetweenCycles heap.now.config host.old.pass.seen }
    ensures home { CallerIsHome heap.now host.new }
    ensures looks { HostOnlyLooks heap.now.config host.old.pass.seen host.new.pass.seen }
    ensures finds { result ≡ option_map
        (freed_object_of heap.now.config (left heap.now.config host.old.pass.seen).allocations)
        (number_freed (never_behind heap.now.config host.old.pass.seen) op) }
{
    match op {
        Op::Free { .. } => object_of_slot(rt, heap, host, slot),
        _ => None,
    }
}
