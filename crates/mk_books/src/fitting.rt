//! Where an object goes, by first fit.
ghost use Rattle.std.specs.Prelude.{◌≡◌, ◌<◌, ◌≤◌, ◌^◌};
ghost use Rattle.mk_geom.specs.PageUses.{place_on_uses, small_place, large_place, carved, uses_of_pages};

use crate::page_uses::{free_cell, is_free, is_resident};
use mk_geom::{Page, Place, SMALL_WORDS, class_of, run_pages};

/// Where an object of this many words goes: a cell of a block of its class and sort, or else free pages, if no more
/// than `resident_limit` pages are resident with them. None if there is no such place, and for an object of no words. A
/// call walks over the pages once, and for a small object only to the first block that has a free cell.
pub fn first_fit(pages: &[Page], resident_limit: u64, words: u64, leaf: bool) -> Option<Place>
    ensures { result ≡ place_on_uses resident_limit words leaf (uses_of_pages pages.now) }
{
    if words <= SMALL_WORDS {
        small_fit(pages, resident_limit, class_of(words)?, leaf)
    } else {
        large_fit(pages, resident_limit, run_pages(words))
    }
}

/// The place of an object of the class.
fn small_fit(pages: &[Page], resident_limit: u64, class: u64, leaf: bool) -> Option<Place>
    requires { class < 8 }
    ensures { result ≡ small_place resident_limit class leaf (uses_of_pages pages.now) }
{
    let mut resident: u64 = 0;
    let mut first_free = None;
    for (number, page) in pages.iter().enumerate() {
        if let Some(index) = free_cell(*page, class, leaf) {
            return Some(Place {
                page: number as u64,
                index,
                carve: false,
            });
        }
        if is_resident(*page) {
            resident += 1;
        }
        if is_free(*page) {
            first_free = first_free.or(Some(number as u64));
        }
    }
    if resident < resident_limit {
        first_free.map(free_pages_from)
    } else {
        None
    }
}

/// The place of a run of this many pages.
fn large_fit(pages: &[Page], resident_limit: u64, count: u64) -> Option<Place>
    requires some { 1 ≤ count }
    requires short { count ≤ 2 ^ 58 }
    ensures { result ≡ large_place resident_limit count (uses_of_pages pages.now) }
{
    let mut resident: u64 = 0;
    // The first page of the free range that ends before this page.
    let mut range = 0;
    let mut first = None;
    for (number, page) in pages.iter().enumerate() {
        if is_resident(*page) {
            resident += 1;
        }
        if !is_free(*page) {
            range = number as u64 + 1;
        } else if number as u64 + 1 - range >= count {
            first = first.or(Some(range));
        }
    }
    if resident + count <= resident_limit {
        first.map(free_pages_from)
    } else {
        None
    }
}

/// The place of an object for which free pages are made into a block or a run, of which this page is the first.
pub fn free_pages_from(page: u64) -> Place
    ensures { result ≡ carved page }
{
    Place {
        page,
        index: 0,
        carve: true,
    }
}
