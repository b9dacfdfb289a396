//! The search for the place of an object, by first fit. The page map that travels with the turn answers it: no word of
//! the table is looked at.
ghost use Rattle.std.specs.Prelude.{◌≡◌, ◌+◌, ◌<◌, ◌≤◌, ◌^◌, nat_lt, if◌then◌else◌, not, true, None, Some, option_map};
ghost use Rattle.std.specs.Prelude.{false, ◌==◌, IfSome};
ghost use Rattle.mk_geom.specs.{Addresses.cells_of, PageUses.{first_where, is_free_page, place_on_uses, small_place}};
ghost use Rattle.mk_geom.specs.PageUses.{large_place, carved, resident_pages, bits_of, use_of_page};
ghost use Rattle.mk_geom.specs.PageUses.{uses_of_pages};
ghost use Rattle.mk_core.specs.Words.{header_at, page_of};
ghost use Rattle.mk_core.specs.Below.Books.KnownPages.{free_cell_on, has_free_cell};
ghost use Rattle.mk_caller.specs.Below.Words.States.{now_of};

use crate::objects::Shape;
use mk_caller::lower::words::{Turn, Words};
use mk_core::lower::books::{free_pages_from, the_lowest_block_has_the_place};
use mk_geom::{Place, SMALL_WORDS, cells, class_of, run_pages};

/// The lowest cell of a block of the class that isn't used.
fn lowest_free(used: u64, class: u64) -> Option<u64>
    requires { class < 8 }
    ensures { result ≡ first_where not (bits_of (cells_of class) used) }
{
    let index = u64::from(used.trailing_ones());
    (index < cells(class)).then_some(index)
}

/// The lowest free cell of a block of the class and sort that has one.
fn free_cell(turn: &Turn, page: u64, class: u64, leaf: bool) -> Place
    requires within { page < turn.now.pass.table.config.pages }
    requires class { class < 8 }
    requires block { has_free_cell class leaf (use_of_page (page_of (now_of turn.now.pass).words page)) ≡ true }
    ensures cell { free_cell_on class leaf (now_of turn.now.pass).words.pages page ≡ Some result }
    ensures page { result.page ≡ page }
{
    let Some(index) = lowest_free(turn.page(page).used, class) else {
        unreachable!()
    };
    Place {
        page,
        index,
        carve: false,
    }
}

/// The first free page, as a place, if fewer pages are resident than may be.
fn free_place(turn: &Turn, limit: u64) -> Option<Place>
    ensures { result
        ≡ (if nat_lt (resident_pages (uses_of_pages (now_of turn.now.pass).words.pages)) limit
        then option_map carved (first_where is_free_page (uses_of_pages
        (now_of turn.now.pass).words.pages)) else None) }
{
    if turn.resident() < limit {
        let page = turn.first_free()?;
        Some(free_pages_from(page))
    } else {
        None
    }
}

/// The place of an object of a class and sort.
fn seek_small(words: &Words, turn: &Turn, class: u64, leaf: bool) -> Option<Place>
    requires one_table { turn.now.pass.table ≡ words.now }
    requires class { class < 8 }
    ensures { result
        ≡ small_place words.now.config.resident class leaf (uses_of_pages (now_of turn.now.pass).words.pages) }
{
    the_lowest_block_has_the_place();
    match turn.first_block(class, leaf) {
        Some(page) => Some(free_cell(turn, page, class, leaf)),
        None => free_place(turn, words.resident()),
    }
}

/// The place of a run of this many pages.
fn seek_large(words: &Words, turn: &Turn, count: u64) -> Option<Place>
    requires one_table { turn.now.pass.table ≡ words.now }
    requires some { 1 ≤ count }
    requires short { count ≤ 2 ^ 58 }
    ensures { result
        ≡ large_place words.now.config.resident count (uses_of_pages (now_of turn.now.pass).words.pages) }
{
    if turn.resident() + count <= words.resident() {
        let page = turn.first_range(count)?;
        Some(free_pages_from(page))
    } else {
        None
    }
}

/// The place of an object of this shape, if a block has a free cell for it.
#[inline(always)]
pub(crate) fn seek_cell(words: &Words, turn: &Turn, shape: Shape) -> Option<Place>
    requires one_table { turn.now.pass.table ≡ words.now }
    ensures fits { IfSome result (λ place.
        place_on_uses words.now.config.resident shape.words shape.leaf
        (uses_of_pages (now_of turn.now.pass).words.pages) ≡ Some place) }
    ensures block { IfSome result (λ place. (header_at (now_of turn.now.pass).words place.page == 0) ≡ false) }
{
    the_lowest_block_has_the_place();
    if shape.words > SMALL_WORDS {
        return None;
    }
    let Some(class) = class_of(shape.words) else {
        return None;
    };
    let Some(page) = turn.first_block(class, shape.leaf) else {
        return None;
    };
    Some(free_cell(turn, page, class, shape.leaf))
}

/// The place of an object of this shape.
pub(crate) fn seek(words: &Words, turn: &Turn, shape: Shape) -> Option<Place>
    requires one_table { turn.now.pass.table ≡ words.now }
    ensures { result
        ≡ place_on_uses words.now.config.resident shape.words shape.leaf
        (uses_of_pages (now_of turn.now.pass).words.pages) }
{
    if shape.words <= SMALL_WORDS {
        seek_small(words, turn, class_of(shape.words)?, shape.leaf)
    } else {
        seek_large(words, turn, run_pages(shape.words))
    }
}
