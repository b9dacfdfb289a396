//! Marks by the values of words, each noted for the scan that is due then.
ghost use Rattle.std.specs.Prelude.{◌≡◌, ◌≢◌, ◌<◌, Some, true};
ghost use Rattle.mk_core.specs.{Cells.{is_marked, points_well}, Words.header_at};
ghost use Rattle.mk_geom.specs.Addresses.{is_heap_address, page_at_address};
ghost use Rattle.mk_cycle.specs.Grays.{IsGray, IsInHand, IsAmong, listed, with_last, MarksAndNotes};
ghost use Rattle.mk_cycle.specs.Stops.{MayTrace, still_words};

use crate::noted::Noted;
use crate::stepping::look_at;
use crate::tables::Table;
use crate::values::mark_white;
use crate::worklist::Worklist;
use mk_core::Word;
use mk_geom::{Cell, HEAP_START, PAGE_WORDS, WORD_BYTES, heap_page, lookup};
use mk_words::Stopped;

/// The header words of blocks for objects with pointers are 1 to this one: 1, and the class.
const LAST_BLOCK: u64 = 8;

/// Notes a marked cell, by the header word of its page.
fn note(table: Table, stop: &mut Stopped, work: &mut Worklist, cell: Cell)
    requires may { MayTrace table.words.now stop.old.pass }
    requires page { cell.page < table.pages }
    requires marked { is_marked (still_words stop.old.pass) cell ≡ true }
    ensures marks { MarksAndNotes table.entry.pages stop.old (listed work.old) stop.new (listed work.new) }
    ensures words { still_words stop.new.pass ≡ still_words stop.old.pass }
    ensures noted { work.new.is_whole ≡ true → IsGray table.entry.pages (still_words stop.old.pass) cell
        → IsAmong work.new.cells.items cell }
{
    let header = look_at(table, stop, Word::Head(cell.page));
    work.extend(Noted::under(header, cell));
}

/// Marks what the hand points into, whatever its page is by this header word, and notes it, if it wasn't marked yet.
#[inline(never)]
fn mark_under(stop: &mut Stopped, work: &mut Worklist, table: Table, header: u64, value: u64)
    requires may { MayTrace table.words.now stop.old.pass }
    requires hand { value ≢ 0 → IsInHand stop.old.pass value }
    requires header { header ≡ header_at (still_words stop.old.pass) (page_at_address value) }
    ensures marks { MarksAndNotes table.entry.pages stop.old (listed work.old) stop.new (listed work.new) }
    ensures well { points_well table.entry.pages (still_words stop.new.pass) value ≡ true }
{
    let Some(cell) = lookup(table.pages, header, value) else {
        return;
    };
    if mark_white(table, stop, cell) {
        note(table, stop, work, cell);
    }
}

/// Marks what the hand points into, in this page. Most pages are blocks for objects with pointers: then what is noted
/// of the cell, if it wasn't marked yet, is returned. Otherwise it goes to the list.
#[inline(always)]
fn mark_pointed(
    table: Table,
    stop: &mut Stopped,
    work: &mut Worklist,
    page: u64,
    value: u64,
) -> Option<Noted>
    requires may { MayTrace table.words.now stop.old.pass }
    requires hand { value ≢ 0 → IsInHand stop.old.pass value }
    requires page { page ≡ page_at_address value }
    requires within { page < table.pages }
    requires inside { is_heap_address table.pages value ≡ true }
    ensures marks { MarksAndNotes table.entry.pages stop.old (listed work.old) stop.new (with_last work.new result) }
    ensures well { points_well table.entry.pages (still_words stop.new.pass) value ≡ true }
{
    let header = look_at(table, stop, Word::Head(page));
    if header == 0 || header > LAST_BLOCK {
        mark_under(stop, work, table, header, value);
        return None;
    }
    let Some(noted) = Noted::in_block(header - 1, page, value / WORD_BYTES % PAGE_WORDS) else {
        return None;
    };
    mark_white(table, stop, noted.cell).then_some(noted)
}

/// Marks what a value points into, and notes it. Most values are no addresses of the heap, and are passed over.
#[inline(always)]
pub(crate) fn mark_value(
    table: Table,
    stop: &mut Stopped,
    work: &mut Worklist,
    value: u64,
) -> Option<Noted>
    requires may { MayTrace table.words.now stop.old.pass }
    requires hand { value ≢ 0 → IsInHand stop.old.pass value }
    ensures marks { MarksAndNotes table.entry.pages stop.old (listed work.old) stop.new (with_last work.new result) }
    ensures well { points_well table.entry.pages (still_words stop.new.pass) value ≡ true }
{
    let Some(page) = heap_page(table.pages, value) else {
        return None;
    };
    mark_pointed(table, stop, work, page, value)
}

/// Marks what the hand points into. Returns what was noted last: this, or what is noted now, and then this goes to the
/// list.
#[inline(always)]
pub(crate) fn mark_and_note(
    table: Table,
    stop: &mut Stopped,
    work: &mut Worklist,
    value: u64,
    last: Noted,
) -> Noted
    requires may { MayTrace table.words.now stop.old.pass }
    requires hand { value ≢ 0 → IsInHand stop.old.pass value }
    ensures marks { MarksAndNotes table.entry.pages stop.old (with_last work.old (Some last)) stop.new
        (with_last work.new (Some result)) }
    ensures well { points_well table.entry.pages (still_words stop.new.pass) value ≡ true }
{
    let Some(noted) = mark_value(table, stop, work, value) else {
        return last;
    };
    work.push(last);
    noted
}

/// Marks what the hand points into, and puts what is noted of it into the list. It is for values that seldom are
/// addresses of the heap.
#[inline(never)]
fn mark_apart(stop: &mut Stopped, work: &mut Worklist, table: Table, value: u64)
    requires may { MayTrace table.words.now stop.old.pass }
    requires hand { value ≢ 0 → IsInHand stop.old.pass value }
    ensures marks { MarksAndNotes table.entry.pages stop.old (listed work.old) stop.new (listed work.new) }
    ensures well { points_well table.entry.pages (still_words stop.new.pass) value ≡ true }
{
    let noted = mark_value(table, stop, work, value);
    work.extend(noted);
}

/// Marks what a value points into, and puts what is noted of it into the list. Most values lie before the heap, as null
/// does, and are passed over.
#[inline(always)]
pub(crate) fn mark_address(table: Table, stop: &mut Stopped, work: &mut Worklist, value: u64)
    requires may { MayTrace table.words.now stop.old.pass }
    requires hand { value ≢ 0 → IsInHand stop.old.pass value }
    ensures marks { MarksAndNotes table.entry.pages stop.old (listed work.old) stop.new (listed work.new) }
    ensures well { points_well table.entry.pages (still_words stop.new.pass) value ≡ true }
{
    if value < HEAP_START {
        return;
    }
    mark_apart(stop, work, table, value);
}
