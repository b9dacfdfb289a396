//! What a page map answers.
ghost use Rattle.std.specs.Prelude.{◌≡◌, ℕ, ◌<◌, ◌≤◌, List, length, false, true};
ghost use Rattle.mk_geom.specs.{declared.pages.Page.Page, PageUses.{first_where, is_free_page, range_start}};
ghost use Rattle.mk_geom.specs.PageUses.{resident_pages, use_of_page, uses_of_pages};
ghost use Rattle.mk_books.specs.KnownPages.{Shows, is_quarantined_page, is_uncleaned};
ghost use Rattle.mk_books.specs.KnownPages.{IsNext, has_free_cell, has_freed_cells, is_free, is_in_use, page_at};
ghost use Rattle.mk_books.specs.PageSets.{AreSets, is_member, is_of_set};

use crate::kinds::{PageKind, kind_of};
use crate::page_map::PageMap;
use crate::sets::next_in;
use crate::sorting::{FREE, IN_USE, QUARANTINED, UNCLEANED, block_set};
use mk_geom::Page;

/// The lowest page of a set that isn't below this one, of a map of this many pages.
fn next_page(count: usize, sets: &[u64], set: usize, from: u64) -> Option<u64>
    requires sets { 0 < count → AreSets sets.now }
    requires set { set < 20 }
    requires few { count ≤ 4096 }
    requires no_others { (number : ℕ) → count ≤ number → number < 4096 → is_member sets.now set number ≡ false }
    ensures { IsNext (is_member sets.now set) from count result }
{
    if from >= count as u64 {
        return None;
    }
    next_in(sets, set, from)
}

impl PageMap {
    /// The lowest page of a set, of those from this one on.
    fn next_of(&self, set: usize, from: u64) -> Option<u64>
        requires { set < 20 }
        ensures sorted { set < 18 → IsNext (λ number. is_of_set set (use_of_page (page_at self.now.pages number))) from
            (length self.now.pages) result }
        ensures quarantined { set ≡ 18 → IsNext (is_quarantined_page self.now) from (length self.now.pages) result }
        ensures uncleaned { set ≡ 19 → IsNext (is_uncleaned self.now) from (length self.now.pages) result }
    {
        next_page(self.pages.len(), &self.sets, set, from)
    }

    /// The lowest free page.
    pub fn first_free(&self) -> Option<u64>
        ensures { (pages : List Page) (freed : List ℕ) → Shows self.now pages freed
            → result ≡ first_where is_free_page (uses_of_pages pages) }
    {
        self.next_of(FREE, 0)
    }

    /// The lowest block of a class and sort that has a free cell.
    pub fn first_block(&self, class: u64, leaf: bool) -> Option<u64>
        requires { class < 8 }
        ensures { (pages : List Page) (freed : List ℕ) → Shows self.now pages freed
            → result ≡ first_where (has_free_cell class leaf) (uses_of_pages pages) }
    {
        self.next_of(block_set(class, leaf), 0)
    }

    /// Whether there is such a page, and it isn't free.
    #[inline(always)]
    fn is_in_use(&self, page: u64) -> bool
        ensures within { result ≡ true → page < length self.now.pages }
        ensures in_use { result ≡ true → is_in_use self.now.pages page ≡ true }
    {
        let place = page as usize;
        place < self.pages.len() && !matches!(kind_of(self.pages[place].header), PageKind::Free)
    }

    /// The lowest page that isn't free, of those from this one on. Mostly it is this one, since first fit leaves few
    /// free pages between others.
    pub fn next_in_use(&self, from: u64) -> Option<u64>
        ensures { (pages : List Page) (freed : List ℕ) → Shows self.now pages freed
            → IsNext (is_in_use pages) from (length pages) result }
    {
        if self.is_in_use(from) {
            return Some(from);
        }
        self.next_of(IN_USE, from)
    }

    /// The lowest free page, of those from this one on.
    pub fn next_free(&self, from: u64) -> Option<u64>
        ensures { (pages : List Page) (freed : List ℕ) → Shows self.now pages freed
            → IsNext (is_free pages) from (length pages) result }
    {
        self.next_of(FREE, from)
    }

    /// The lowest page that has freed cells, of those from this one on.
    pub fn next_quarantined(&self, from: u64) -> Option<u64>
        ensures { (pages : List Page) (freed : List ℕ) → Shows self.now pages freed
            → IsNext (has_freed_cells freed) from (length pages) result }
    {
        self.next_of(QUARANTINED, from)
    }

    /// The lowest free page that may be marked, of those from this one on.
    pub fn next_uncleaned(&self, from: u64) -> Option<u64>
        ensures { IsNext (is_uncleaned self.now) from (length self.now.pages) result }
    {
        self.next_of(UNCLEANED, from)
    }

    /// The first page of the lowest range of this many free pages. For one page that is the lowest free one. For more
    /// it goes from one range of free pages to the next.
    pub fn first_range(&self, count: u64) -> Option<u64>
        requires { 1 ≤ count }
        ensures { (pages : List Page) (freed : List ℕ) → Shows self.now pages freed
            → result ≡ range_start count (uses_of_pages pages) }
    {
        if count == 1 {
            return self.first_free();
        }
        let pages = self.pages.len() as u64;
        let mut from = 0;
        while let Some(start) = self.next_of(FREE, from) {
            let end = self.next_of(IN_USE, start).unwrap_or(pages);
            if end - start >= count {
                return Some(start);
            }
            from = end;
        }
        None
    }

    /// How many pages are resident.
    pub fn resident(&self) -> u64
        ensures { (pages : List Page) (freed : List ℕ) → Shows self.now pages freed
            → result ≡ resident_pages (uses_of_pages pages) }
    {
        self.resident
    }

    /// The header and used word of a page.
    pub fn page(&self, page: u64) -> Page
        requires { page < length self.now.pages }
        ensures { (pages : List Page) (freed : List ℕ) → Shows self.now pages freed
            → result ≡ page_at pages page }
    {
        self.pages[page as usize]
    }

    /// The header and used word of each page.
    pub fn pages(&self) -> &[Page]
        ensures { (pages : List Page) (freed : List ℕ) → Shows self.now pages freed
            → result.now ≡ pages }
    {
        &self.pages
    }
}
