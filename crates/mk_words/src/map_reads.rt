//! What the turn's holder reads off the page map. Nothing of it is an access to the table, and each answer is of what
//! is left after all that the turn's pass has seen.
ghost use Rattle.std.specs.Prelude.{◌≡◌, ◌<◌, ◌≤◌};
ghost use Rattle.mk_geom.specs.PageUses.{first_where, is_free_page, range_start, resident_pages};
ghost use Rattle.mk_geom.specs.PageUses.{uses_of_pages};
ghost use Rattle.mk_core.specs.Below.Books.KnownPages.{IsNext, has_free_cell, has_freed_cells, is_free, is_in_use};
ghost use Rattle.mk_core.specs.Words.{page_of};
ghost use Rattle.mk_words.specs.{PageMaps.{HasNoMarks, IsNextUncleaned}, States.now_of};

use crate::gates::Gates;
use crate::turns::TurnAt;
use mk_geom::Page;

impl<G: Gates> TurnAt<G> {
    /// The lowest free page.
    pub fn first_free(&self) -> Option<u64>
        ensures { result ≡ first_where is_free_page (uses_of_pages (now_of self.now.pass).words.pages) }
    {
        self.map.first_free()
    }

    /// The first page of the lowest range of this many free pages.
    pub fn first_range(&self, count: u64) -> Option<u64>
        requires { 1 ≤ count }
        ensures { result ≡ range_start count (uses_of_pages (now_of self.now.pass).words.pages) }
    {
        self.map.first_range(count)
    }

    /// The lowest block of a class and sort that has a free cell.
    pub fn first_block(&self, class: u64, leaf: bool) -> Option<u64>
        requires { class < 8 }
        ensures { result ≡ first_where (has_free_cell class leaf) (uses_of_pages (now_of self.now.pass).words.pages) }
    {
        self.map.first_block(class, leaf)
    }

    /// The lowest page that isn't free, of those from this one on.
    pub fn next_in_use(&self, from: u64) -> Option<u64>
        ensures { IsNext (is_in_use (now_of self.now.pass).words.pages) from self.now.pass.table.config.pages result }
    {
        self.map.next_in_use(from)
    }

    /// The lowest free page, of those from this one on.
    pub fn next_free(&self, from: u64) -> Option<u64>
        ensures { IsNext (is_free (now_of self.now.pass).words.pages) from self.now.pass.table.config.pages result }
    {
        self.map.next_free(from)
    }

    /// The lowest page that has freed cells, of those from this one on.
    pub fn next_quarantined(&self, from: u64) -> Option<u64>
        ensures { IsNext (has_freed_cells (now_of self.now.pass).words.freed) from self.now.pass.table.config.pages
            result }
    {
        self.map.next_quarantined(from)
    }

    /// The next page, from this one on, that may be marked, though it has no header.
    pub fn next_uncleaned(&self, from: u64) -> Option<u64>
        ensures { IsNextUncleaned (now_of self.now.pass).words from self.now.pass.table.config.pages result }
    {
        self.map.next_uncleaned(from)
    }

    /// Nothing of this page is marked or black. The map knows it from now on, so that `next_uncleaned` leaves it out.
    pub fn cleaned(&mut self, page: u64)
        requires within { page < self.old.pass.table.config.pages }
        requires none { HasNoMarks (now_of self.old.pass).words page }
        ensures same { self.new ≡ self.old }
    {
        self.map.cleaned(page);
    }

    /// How many pages are resident.
    pub fn resident(&self) -> u64
        ensures { result ≡ resident_pages (uses_of_pages (now_of self.now.pass).words.pages) }
    {
        self.map.resident()
    }

    /// The header and used word of a page.
    pub fn page(&self, page: u64) -> Page
        requires { page < self.now.pass.table.config.pages }
        ensures { result ≡ page_of (now_of self.now.pass).words page }
    {
        self.map.page(page)
    }

    /// The header and used word of each page.
    pub fn pages(&self) -> &[Page]
        ensures { result.now ≡ (now_of self.now.pass).words.pages }
    {
        self.map.pages()
    }
}
