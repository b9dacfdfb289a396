//! Counts of what is on the pages.
ghost use Rattle.std.specs.Prelude.{◌≡◌, ◌<◌, count_by};
ghost use Rattle.mk_geom.specs.PageUses.{is_free_page, resident_pages, longest_free_range, held_by_uses, census_among};
ghost use Rattle.mk_geom.specs.PageUses.{uses_of_pages};
ghost use Rattle.mk_books.specs.Cells.{free_cells_by_class, class_place};

use crate::page_uses::{BlockKind, block_of, count_clear, is_free, is_resident, words_on};
use mk_geom::{Census, Page, cells};

const CLASSES: usize = 8;

/// Counts of what is on the pages. It walks over them four times.
pub fn census(pages: &[Page]) -> Census
    ensures { result ≡ census_among (uses_of_pages pages.now) }
{
    Census {
        free_pages: free_pages(pages),
        longest_range: longest_range(pages),
        resident: count_resident(pages),
        free_cells: free_cells(pages),
    }
}

/// How many pages are free.
pub fn free_pages(pages: &[Page]) -> u64
    ensures { result ≡ count_by is_free_page (uses_of_pages pages.now) }
{
    pages.iter().filter(|page| is_free(**page)).count() as u64
}

/// How much is held, in words: those of the cells that are taken, and of the pages of mapped runs.
pub fn held_by_pages(pages: &[Page]) -> u128
    ensures { result ≡ held_by_uses (uses_of_pages pages.now) }
{
    pages.iter().map(|page| u128::from(words_on(*page))).sum()
}

fn count_resident(pages: &[Page]) -> u64
    ensures { result ≡ resident_pages (uses_of_pages pages.now) }
{
    pages.iter().filter(|page| is_resident(**page)).count() as u64
}

/// How many pages the longest range of free pages has.
fn longest_range(pages: &[Page]) -> u64
    ensures { result ≡ longest_free_range (uses_of_pages pages.now) }
{
    let mut longest: u64 = 0;
    let mut range: u64 = 0;
    for page in pages {
        range = if is_free(*page) { range + 1 } else { 0 };
        longest = range.max(longest);
    }
    longest
}

/// How many free cells the blocks of each class have, and then the leaf blocks of each class.
fn free_cells(pages: &[Page]) -> [u64; 16]
    ensures { result ≡ free_cells_by_class (uses_of_pages pages.now) }
{
    let mut counts = [0; 2 * CLASSES];
    for page in pages {
        if let Some(kind) = block_of(*page) {
            counts[class_place(kind)] += count_clear(page.used, cells(kind.class));
        }
    }
    counts
}

fn class_place(kind: BlockKind) -> usize
    requires { kind.class < 8 }
    ensures place { result ≡ class_place kind.class kind.leaf }
    ensures in_range { result < 16 }
{
    let class = kind.class as usize;
    if kind.leaf { CLASSES + class } else { class }
}
