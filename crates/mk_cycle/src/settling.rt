//! Page by page, what was released is counted and given back, and pages on which nothing is left are freed: in one
//! pass, which looks at the pages that have freed cells, and at the later pages of their runs.
ghost use Rattle.std.specs.Prelude.{◌≡◌, ◌<◌, ◌≤◌, ◌+◌, ◌-◌, ℕ, Some, true, false};
ghost use Rattle.mk_core.specs.{Cells.{head_page, header_in, left_unmarked}, Words.used_at};
ghost use Rattle.mk_geom.specs.declared.headers.Header.TheVariants.{Later};
ghost use Rattle.mk_core.specs.Below.Books.KnownPages.{IsNext};
ghost use Rattle.mk_words.specs.States.{now_of};
ghost use Rattle.mk_cycle.specs.{EngineLaw.{IsTurnAmong, IsTurnAt}, Freeing.{Frees, FreesPage, FreesRun}};
ghost use Rattle.mk_cycle.specs.Freeing.{HasFreeCells, HasGivenBackOn, IsOccupied, IsSettledPage, may_be_unsettled};
ghost use Rattle.mk_cycle.specs.Freeing.{heads_unmapped_pages, held_below, released_below};

use crate::finishing::Released;
use crate::freeing::release_cells;
use crate::reading::ReadHeader;
use mk_geom::{Header, encode};
use mk_words::{Turn, Words};

/// What was released, and how many of its words were held until then.
#[derive(Clone, Copy)]
pub(crate) struct Settled {
    pub(crate) released: Released,
    pub(crate) held: u64,
}

/// Frees a page, if no cell is used at the head of its run.
fn free_unused(turn: &mut Turn, words: &Words, page: u64, head: u64)
    requires turn { IsTurnAt 4 words.now turn.old.pass }
    requires within { page < words.now.config.pages }
    requires near { head < words.now.config.pages }
    requires head { head ≡ head_page (now_of turn.old.pass).words page }
    requires none_left { left_unmarked (now_of turn.old.pass).words page ≡ 0 }
    requires none_at_head { left_unmarked (now_of turn.old.pass).words head ≡ 0 }
    ensures frees { FreesPage page turn.old.pass turn.new.pass }
    ensures settled { IsSettledPage turn.new.pass page }
{
    if turn.page(head).used == 0 {
        turn.head(words, page, 0);
    }
}

/// Whether a page is one of the unmapped run that is headed so far before it.
#[inline(always)]
fn is_later_page(turn: &Turn, head: u64, page: u64) -> bool
    requires within { page < turn.now.pass.table.config.pages }
    requires after { head < page }
    requires near { page < head + 64 }
    ensures { result ≡ true → header_in (now_of turn.now.pass).words page ≡ Some (Later (page - head) false) }
{
    let later = Header::Later {
        distance: page - head,
        mapped: false,
    };
    turn.page(page).header == encode(later)
}

/// Where the later pages of an unmapped run end, of those from one on and below another.
#[inline(always)]
fn later_end(turn: &Turn, head: u64, from: u64, to: u64) -> u64
    requires within { to ≤ turn.now.pass.table.config.pages }
    requires after { head < from }
    requires near { to ≤ head + 64 }
    requires some { from ≤ to }
    ensures begun { from ≤ result }
    ensures ends { result ≤ to }
    ensures later { (page : ℕ) → from ≤ page → page < result
        → header_in (now_of turn.now.pass).words page ≡ Some (Later (page - head) false) }
{
    for page in from..to {
        if !is_later_page(turn, head, page) {
            return page;
        }
    }
    to
}

/// Frees an unmapped run of several pages on which no cell is used, up to this end: its head, and then its later pages
/// up to the first that has freed cells. Returns the first page that it left. Nothing was released on a page without
/// freed cells, so it isn't looked at.
#[inline(always)]
fn free_run(turn: &mut Turn, words: &Words, pages: u64, head: u64, end: u64) -> u64
    requires turn { IsTurnAmong 4 words.now turn.old.pass pages }
    requires within { head < words.now.config.pages }
    requires some { head < end }
    requires heads { heads_unmapped_pages (header_in (now_of turn.old.pass).words head) ≡ true }
    requires unused { used_at (now_of turn.old.pass).words head ≡ 0 }
    requires none_left { left_unmarked (now_of turn.old.pass).words head ≡ 0 }
    ensures begun { head < result }
    ensures ends { result ≤ words.now.config.pages }
    ensures frees { FreesRun head result turn.old.pass turn.new.pass }
{
    words.is_within_limits();
    let from = head + 1;
    let next = turn.next_quarantined(from).unwrap_or(pages);
    let last = later_end(turn, head, from, end.min(next).min(head + 64));
    turn.free_pages(words, head, last - head);
    last
}

/// Frees a page whose released cells were given back, if no cell is used at the head of its run. If it heads an
/// unmapped run of several pages, later pages of it are freed too. Returns the first page that it left.
#[inline(always)]
fn free_emptied(turn: &mut Turn, words: &Words, pages: u64, page: u64, header: &ReadHeader) -> u64
    requires gave { HasGivenBackOn words.now turn.old.pass pages page header.now }
    ensures begun { page < result }
    ensures ends { result ≤ words.now.config.pages }
    ensures frees { FreesRun page result turn.old.pass turn.new.pass }
{
    words.is_within_limits();
    if header.heads_unmapped_pages() && turn.page(page).used == 0 {
        return free_run(turn, words, pages, page, header.run_end(page));
    }
    free_unused(turn, words, page, header.head_page(page));
    page + 1
}

/// The next page, from this one on, that may be unsettled: up to the end of a run each may be, and after it those that
/// have freed cells.
#[inline(always)]
fn next_to_settle(turn: &Turn, pages: u64, from: u64, end: u64) -> Option<u64>
    requires pages { pages ≡ turn.now.pass.table.config.pages }
    ensures { IsNext (may_be_unsettled (now_of turn.now.pass).words end) from turn.now.pass.table.config.pages
        result }
{
    let next = turn.next_quarantined(from);
    let known = end.min(pages);
    if from < known {
        return Some(from);
    }
    next
}

/// Gives back all that was released, and counts it. It leaves out pages that have no freed cells, but for the later
/// pages of runs: nothing was released on them, and they are in use.
#[inline(always)]
pub(crate) fn settle_pages(turn: &mut Turn, words: &Words) -> Settled
    requires turn { IsTurnAt 4 words.now turn.old.pass }
    requires cells { (page : ℕ) → page < words.now.config.pages → HasFreeCells turn.old.pass page }
    requires occupied { (page : ℕ) → IsOccupied turn.old.pass page }
    ensures frees { Frees turn.old.pass turn.new.pass }
    ensures settled { (page : ℕ) → page < words.now.config.pages → IsSettledPage turn.new.pass page }
    ensures released { result.released ≡ released_below (now_of turn.old.pass).words words.now.config.pages }
    ensures held { result.held ≡ held_below (now_of turn.old.pass).words words.now.config.pages }
{
    words.is_within_limits();
    let pages = words.pages();
    let mut all = Released {
        count: 0,
        words: 0,
        kept: 0,
    };
    let mut held: u64 = 0;
    let mut from = 0;
    let mut end = 0;
    while let Some(page) = next_to_settle(turn, pages, from, end) {
        let word = turn.page(page).header;
        let header = ReadHeader::of(word);
        let here = release_cells(turn, words, pages, page, &header);
        all.count += here.released.count;
        all.words += here.released.words;
        all.kept += here.released.kept;
        held += here.held;
        end = end.max(header.run_end(page));
        from = free_emptied(turn, words, pages, page, &header);
    }
    Settled {
        released: all,
        held,
    }
}
