//! The sets that a page is in, by what is on it.
ghost use Rattle.std.specs.Prelude.{◌≡◌, ℕ, ◌<◌, ◌≤◌, ◌==◌, ◌&&◌, ◌||◌, IfOk, false, true, nat_lt, not};
ghost use Rattle.mk_books.specs.Cells.{class_place};
ghost use Rattle.mk_geom.specs.{Addresses.header_of, PageUses.use_under};
ghost use Rattle.mk_geom.specs.PageUses.{PartOfRun, is_free_page, is_resident_page};
ghost use Rattle.mk_books.specs.PageSets.{AreSets, HasClass, IsInItsSets, PutsFree, PutsPage, SortsPage, is_member};
ghost use Rattle.mk_books.specs.PageSets.{use_of_kind};

use crate::kinds::{PageKind, has_free_cell, kind_of};
use crate::sets::{SET_WORDS, insert, ones_below, put, remove, store_word};
use std::alloc::{AllocError, Global};

/// The set of the free pages. Sets 0 to 15 have the blocks with a free cell.
pub(crate) const FREE: usize = 16;

/// The set of the pages that aren't free.
pub(crate) const IN_USE: usize = 17;

/// The set of the pages that have freed cells.
pub(crate) const QUARANTINED: usize = 18;

/// The set of the free pages that may be marked.
pub(crate) const UNCLEANED: usize = 19;

/// The number of sets.
pub(crate) const SETS: usize = 20;

/// The set of the blocks of a class and sort that have a free cell.
pub(crate) fn block_set(class: u64, leaf: bool) -> usize
    requires { class < 8 }
    ensures place { result ≡ class_place class leaf }
    ensures within { result < 16 }
{
    let class = class as usize;
    if leaf { 8 + class } else { class }
}

/// Puts a page among the free ones, and among the free ones that may be marked.
#[inline(always)]
fn put_free(sets: &mut [u64], page: u64)
    requires sets { AreSets sets.old }
    requires page { page < 4096 }
    ensures { PutsFree sets.old sets.new page true }
{
    insert(sets, FREE, page);
    remove(sets, IN_USE, page);
    insert(sets, UNCLEANED, page);
}

/// Puts a free page among those in use, and takes it from the free ones and from those of them that may be marked.
#[inline(always)]
fn put_in_use(sets: &mut [u64], page: u64)
    requires sets { AreSets sets.old }
    requires page { page < 4096 }
    ensures { PutsFree sets.old sets.new page false }
{
    remove(sets, FREE, page);
    insert(sets, IN_USE, page);
    remove(sets, UNCLEANED, page);
}

/// Takes a page out of its sets, and puts it among those in use. So it is sorted as a page of a run.
#[inline(always)]
fn leave_sets(sets: &mut [u64], page: u64, kind: PageKind)
    requires sets { AreSets sets.old }
    requires page { page < 4096 }
    requires class { HasClass kind }
    requires sorted { (used : ℕ) × IsInItsSets sets.old page (use_of_kind kind used) }
    ensures sorts { SortsPage sets.old sets.new page (PartOfRun false) }
    ensures uncleaned { (used : ℕ) → is_member sets.new 19 page
        ≡ (not (is_free_page (use_of_kind kind used)) && is_member sets.old 19 page) }
{
    match kind {
        PageKind::Free => put_in_use(sets, page),
        PageKind::Block { class, leaf } => remove(sets, block_set(class, leaf), page),
        PageKind::Run { .. } => {}
    }
}

/// Puts a page that is sorted as one of a run into the sets that it is of.
#[inline(always)]
fn join_sets(sets: &mut [u64], page: u64, kind: PageKind, used: u64)
    requires sets { AreSets sets.old }
    requires page { page < 4096 }
    requires class { HasClass kind }
    requires sorted { IsInItsSets sets.old page (PartOfRun false) }
    ensures sorts { SortsPage sets.old sets.new page (use_of_kind kind used) }
    ensures uncleaned { is_member sets.new 19 page
        ≡ (is_free_page (use_of_kind kind used) || is_member sets.old 19 page) }
{
    match kind {
        PageKind::Free => put_free(sets, page),
        PageKind::Block { class, leaf } => put(
            sets,
            block_set(class, leaf),
            page,
            has_free_cell(class, used),
        ),
        PageKind::Run { .. } => {}
    }
}

/// Sorts a page anew whose header word has changed, and returns whether it is resident now. The page leaves its sets
/// before the new word is read.
#[inline(always)]
pub(crate) fn sort_by_header(
    sets: &mut [u64],
    page: u64,
    before: PageKind,
    header: u64,
    used: u64,
) -> bool
    requires sets { AreSets sets.old }
    requires page { page < 4096 }
    requires class { HasClass before }
    requires sorted { IsInItsSets sets.old page (use_of_kind before used) }
    ensures resident { (word : ℕ) → is_resident_page (use_under (header_of header) word) ≡ result }
    ensures sorts { SortsPage sets.old sets.new page (use_under (header_of header) used) }
    ensures uncleaned { is_member sets.new 19 page
        ≡ (header == 0 || (not (is_free_page (use_of_kind before used)) && is_member sets.old 19 page)) }
{
    leave_sets(sets, page, before);
    let after = kind_of(header);
    let is_resident = after.is_resident();
    join_sets(sets, page, after, used);
    is_resident
}

/// Sorts a page anew whose used word has changed. A block that has a free cell before and after stays in its sets.
pub(crate) fn sort_by_used(sets: &mut [u64], page: u64, kind: PageKind, before: u64, after: u64)
    requires sets { AreSets sets.old }
    requires page { page < 4096 }
    requires class { HasClass kind }
    requires sorted { IsInItsSets sets.old page (use_of_kind kind before) }
    ensures sorts { SortsPage sets.old sets.new page (use_of_kind kind after) }
    ensures uncleaned { is_member sets.new 19 page ≡ is_member sets.old 19 page }
{
    if let PageKind::Block { class, leaf } = kind {
        let is_open = has_free_cell(class, after);
        if has_free_cell(class, before) != is_open {
            put(sets, block_set(class, leaf), page, is_open);
        }
    }
}

/// Sorts a page anew whose quarantine word has changed.
pub(crate) fn sort_by_quarantine(sets: &mut [u64], page: u64, freed: u64)
    requires sets { AreSets sets.old }
    requires page { page < 4096 }
    ensures { PutsPage sets.old sets.new 18 page (not (freed == 0)) }
{
    put(sets, QUARANTINED, page, freed != 0);
}

/// The sets of this many free pages.
pub(crate) fn free_sets(alloc: Global, pages: u64) -> Result<Vec<u64>, AllocError>
    requires { pages ≤ 4096 }
    ensures sets { IfOk result (λ sets. AreSets sets.items) }
    ensures members { IfOk result (λ sets. (set number : ℕ) → set < 20 → number < 4096
        → is_member sets.items set number ≡ (set == 16) && nat_lt number pages) }
{
    let mut sets = vec![in alloc; 0; SETS * SET_WORDS]?;
    for word in 0..pages.div_ceil(64) {
        store_word(&mut sets, FREE, word, ones_below(pages - 64 * word));
    }
    Ok(sets)
}
