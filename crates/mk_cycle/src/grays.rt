//! The search for gray cells: marked, and not black.
ghost use Rattle.std.specs.Prelude.{◌≡◌, ℕ, ◌<◌, ◌≤◌, true, false, [], IfSome, IfNone, slice_index};
ghost use Rattle.mk_geom.specs.Addresses.{header_of};
ghost use Rattle.mk_core.specs.{Words.has_bit, Cells.cells_under};
ghost use Rattle.mk_cycle.specs.{Grays.{HasNoGray, LooksOn, gray_bits, is_black}, Stops.{MayTrace, still_words}};
ghost use Rattle.mk_cycle.specs.Grays.{AreNoted, IsGrayNoted, IsNoted, listed, with_last};

use crate::noted::Noted;
use crate::stepping::look_at;
use crate::tables::Table;
use crate::worklist::Worklist;
use mk_core::{Word, cells_under, has_cell, without, words_scanned};
use mk_geom::Cell;
use mk_words::Stopped;

/// The first of these cells that is under the header word.
fn first_of(cells: u64, header: u64) -> Option<u64>
    requires some { 0 < cells }
    ensures known { IfSome result (λ k. k < cells_under (header_of header)) }
    ensures one { IfSome result (λ k. has_bit cells k ≡ true) }
    ensures none { IfNone result ((k : ℕ) → k < cells_under (header_of header) → has_bit cells k ≡ false) }
{
    let index = u64::from(cells.trailing_zeros());
    (index < cells_under(header)).then_some(index)
}

/// The first gray cell of a page with these gray bits. Few pages have any when they are searched.
#[inline(never)]
fn gray_among(table: Table, stop: &mut Stopped, page: u64, grays: u64) -> Option<Noted>
    requires may { MayTrace table.words.now stop.old.pass }
    requires page { page < table.pages }
    requires grays { grays ≡ gray_bits (still_words stop.old.pass) page }
    requires some { 0 < grays }
    ensures looks { LooksOn stop.old stop.new }
    ensures gray { IfSome result (IsGrayNoted table.entry.pages (still_words stop.old.pass)) }
    ensures none { IfNone result (HasNoGray (still_words stop.old.pass) page) }
{
    let header = look_at(table, stop, Word::Head(page));
    let Some(index) = first_of(grays, header) else {
        return None;
    };
    Some(Noted {
        cell: Cell { page, index },
        words: words_scanned(header),
    })
}

/// The gray bits of a page. Its black word is looked at only if a cell is marked.
#[inline(always)]
fn gray_bits(table: Table, stop: &mut Stopped, page: u64) -> u64
    requires may { MayTrace table.words.now stop.old.pass }
    requires page { page < table.pages }
    ensures looks { LooksOn stop.old stop.new }
    ensures bits { result ≡ gray_bits (still_words stop.old.pass) page }
{
    let marks = look_at(table, stop, Word::Mark(page));
    if marks == 0 {
        return 0;
    }
    let blacks = look_at(table, stop, Word::Black(page));
    without(marks, blacks)
}

/// The first gray cell from a page on, up to another. It goes from page in use to page in use: a free page has no cell.
#[inline(always)]
fn gray_between(table: Table, stop: &mut Stopped, from: u64, to: u64) -> Option<Noted>
    requires may { MayTrace table.words.now stop.old.pass }
    requires to { to ≤ table.pages }
    ensures looks { LooksOn stop.old stop.new }
    ensures gray { IfSome result (IsGrayNoted table.entry.pages (still_words stop.old.pass)) }
    ensures none { IfNone result ((p : ℕ) → from ≤ p → p < to → HasNoGray (still_words stop.old.pass) p) }
{
    let mut next = from;
    while let Some(page) = stop.next_in_use(next) {
        if page >= to {
            return None;
        }
        let grays = gray_bits(table, stop, page);
        if grays != 0 {
            let found = gray_among(table, stop, page, grays);
            if let Some(gray) = found {
                return Some(gray);
            }
        }
        next = page + 1;
    }
    None
}

/// Whether a cell that was noted is gray. It is marked.
#[inline(always)]
fn is_gray(table: Table, stop: &mut Stopped, noted: Noted) -> bool
    requires may { MayTrace table.words.now stop.old.pass }
    requires noted { IsNoted table.pages (still_words stop.old.pass) noted }
    ensures looks { LooksOn stop.old stop.new }
    ensures gray { result ≡ true → IsGrayNoted table.entry.pages (still_words stop.old.pass) noted }
    ensures black { result ≡ false → is_black (still_words stop.old.pass) noted.cell ≡ true }
{
    let Cell { page, index } = noted.cell;
    !has_cell(look_at(table, stop, Word::Black(page)), index)
}

/// The last gray cell of the list.
#[inline(always)]
fn gray_noted(table: Table, stop: &mut Stopped, work: &mut Worklist) -> Option<Noted>
    requires may { MayTrace table.words.now stop.old.pass }
    requires noted { AreNoted table.pages (still_words stop.old.pass) (listed work.old) }
    ensures looks { LooksOn stop.old stop.new }
    ensures noted { AreNoted table.entry.pages (still_words stop.old.pass) (with_last work.new result) }
    ensures gray { IfSome result (IsGrayNoted table.entry.pages (still_words stop.old.pass)) }
    ensures none { IfNone result (work.new.cells.items ≡ []) }
{
    while let Some(noted) = work.pop() {
        if is_gray(table, stop, noted) {
            return Some(noted);
        }
    }
    None
}

/// A gray cell, from the page on where the last one was found, and then from the first page up to it. None if no page
/// has any.
fn gray_somewhere(table: Table, stop: &mut Stopped, from: u64) -> Option<Noted>
    requires may { MayTrace table.words.now stop.old.pass }
    ensures looks { LooksOn stop.old stop.new }
    ensures gray { IfSome result (IsGrayNoted table.entry.pages (still_words stop.old.pass)) }
    ensures none { IfNone result ((p : ℕ) → p < table.entry.pages → HasNoGray (still_words stop.old.pass) p) }
{
    let found = gray_between(table, stop, from, table.pages);
    if let Some(gray) = found {
        return Some(gray);
    }
    if from == 0 {
        return None;
    }
    gray_between(table, stop, 0, from.min(table.pages))
}

/// A gray cell: one of the list, or one that is found page by page, unless the list was whole. None if no page has
/// any.
#[inline(always)]
fn another_gray(table: Table, stop: &mut Stopped, work: &mut Worklist) -> Option<Noted>
    requires may { MayTrace table.words.now stop.old.pass }
    requires noted { AreNoted table.pages (still_words stop.old.pass) (listed work.old) }
    ensures looks { LooksOn stop.old stop.new }
    ensures noted { AreNoted table.entry.pages (still_words stop.old.pass) (with_last work.new result) }
    ensures gray { IfSome result (IsGrayNoted table.entry.pages (still_words stop.old.pass)) }
    ensures none { IfNone result ((p : ℕ) → p < table.entry.pages → HasNoGray (still_words stop.old.pass) p) }
{
    let noted = gray_noted(table, stop, work);
    if let Some(gray) = noted {
        return Some(gray);
    }
    if work.is_whole {
        return None;
    }
    let Some(gray) = gray_somewhere(table, stop, work.page) else {
        return None;
    };
    work.page = gray.cell.page;
    Some(gray)
}

/// A gray cell: the one that was noted last, if there is one, or another. None if no page has any.
#[inline(always)]
pub(crate) fn next_gray(
    table: Table,
    stop: &mut Stopped,
    work: &mut Worklist,
    last: Option<Noted>,
) -> Option<Noted>
    requires may { MayTrace table.words.now stop.old.pass }
    requires noted { AreNoted table.pages (still_words stop.old.pass) (with_last work.old last) }
    ensures looks { LooksOn stop.old stop.new }
    ensures noted { AreNoted table.entry.pages (still_words stop.new.pass) (with_last work.new result) }
    ensures gray { IfSome result (IsGrayNoted table.entry.pages (still_words stop.old.pass)) }
    ensures none { IfNone result ((p : ℕ) → p < table.entry.pages → HasNoGray (still_words stop.old.pass) p) }
{
    if let Some(noted) = last {
        if is_gray(table, stop, noted) {
            return Some(noted);
        }
    }
    another_gray(table, stop, work)
}
