//! Dirty pages: their black words are cleared, so that their cells are scanned again, and then their dirty words. A
//! word that is 0 isn't stored to.
ghost use Rattle.std.specs.Prelude.{◌≡◌, ◌≢◌, ℕ, ◌<◌, ◌≤◌, true, false, slice_index};
ghost use Rattle.mk_cycle.specs.Grays.{BlacksFewer, HasDirtyPart, IsCleaner, IsUnmarked, DirtyIsUnscanned, MarksOn};
ghost use Rattle.mk_cycle.specs.{Grays.without_blacks, Stops.{MayTrace, still_words}};

use crate::stepping::{clear_black, look_at, undirty_page};
use crate::tables::Table;
use mk_core::Word;
use mk_geom::head_page_under;
use mk_words::Stopped;

/// Clears the black word of a page of which a part is dirty, so that its cells are scanned again.
fn unblack_page(table: Table, stop: &mut Stopped, page: u64)
    requires may { MayTrace table.words.now stop.old.pass }
    requires page { page < table.pages }
    requires part { HasDirtyPart (still_words stop.old.pass) page }
    ensures on { MarksOn stop.old stop.new }
    ensures words { still_words stop.new.pass ≡ without_blacks page (still_words stop.old.pass) }
{
    if look_at(table, stop, Word::Black(page)) != 0 {
        clear_black(table, stop, page);
    }
}

/// Clears the black word of a page that is dirty, and that of the head of its run. Returns whether it is dirty.
fn unblack_if_dirty(table: Table, stop: &mut Stopped, page: u64) -> bool
    requires may { MayTrace table.words.now stop.old.pass }
    requires page { page < table.pages }
    ensures on { MarksOn stop.old stop.new }
    ensures fewer { BlacksFewer (still_words stop.old.pass) (still_words stop.new.pass) }
    ensures unscanned { DirtyIsUnscanned (still_words stop.new.pass) page }
    ensures dirty { result ≡ true → slice_index (still_words stop.old.pass).dirty page ≢ 0 }
    ensures clean { result ≡ false → slice_index (still_words stop.old.pass).dirty page ≡ 0 }
{
    if look_at(table, stop, Word::Dirty(page)) == 0 {
        return false;
    }
    let header = look_at(table, stop, Word::Head(page));
    unblack_page(table, stop, page);
    let head = head_page_under(header, page);
    if head == page {
        return true;
    }
    unblack_page(table, stop, head);
    true
}

/// Clears a page's dirty word, if it is dirty. Its cells, and the run of which it is a part, are scanned again.
fn clean_if_dirty(table: Table, stop: &mut Stopped, page: u64)
    requires may { MayTrace table.words.now stop.old.pass }
    requires page { page < table.pages }
    ensures on { MarksOn stop.old stop.new }
    ensures fewer { IsCleaner (still_words stop.old.pass) (still_words stop.new.pass) }
    ensures clean { slice_index (still_words stop.new.pass).dirty page ≡ 0 }
{
    if unblack_if_dirty(table, stop, page) {
        undirty_page(table, stop, page);
    }
}

/// Clears the dirty words of the pages from one on and below another. Returns the marks of all of them, each of whose
/// bits is 1 if it is so on one of the pages.
#[inline(always)]
fn clean_range(table: Table, stop: &mut Stopped, from: u64, end: u64) -> u64
    requires may { MayTrace table.words.now stop.old.pass }
    requires within { end ≤ table.pages }
    ensures on { MarksOn stop.old stop.new }
    ensures fewer { IsCleaner (still_words stop.old.pass) (still_words stop.new.pass) }
    ensures clean { (p : ℕ) → from ≤ p → p < end → slice_index (still_words stop.new.pass).dirty p ≡ 0 }
    ensures unmarked { result ≡ 0 → (p : ℕ) → from ≤ p → p < end → IsUnmarked (still_words stop.new.pass) p }
{
    let mut marks = 0;
    for page in from..end {
        clean_if_dirty(table, stop, page);
        marks |= look_at(table, stop, Word::Mark(page));
    }
    marks
}

/// Clears all dirty words. The cells of dirty pages, and the runs with such a page, are scanned again. It goes from one
/// range of pages in use to the next: no free page is dirty. Returns true only if no cell is marked.
pub(crate) fn clean_dirty(table: Table, stop: &mut Stopped) -> bool
    requires may { MayTrace table.words.now stop.old.pass }
    ensures on { MarksOn stop.old stop.new }
    ensures clean { (p : ℕ) → p < table.entry.pages → slice_index (still_words stop.new.pass).dirty p ≡ 0 }
    ensures unmarked { result ≡ true → (p : ℕ) → p < table.entry.pages → IsUnmarked (still_words stop.new.pass) p }
{
    let mut marks = 0;
    let mut from = 0;
    while let Some(page) = stop.next_in_use(from) {
        let end = stop.next_free(page + 1).unwrap_or(table.pages);
        marks |= clean_range(table, stop, page, end);
        from = end;
    }
    marks == 0
}
