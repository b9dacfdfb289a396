//! What a page map is told of: each word of a page that is stored, and which free pages may be marked.
ghost use Rattle.std.specs.Prelude.{◌≡◌, ℕ, ◌<◌, ◌||◌, false, List, length, slice_set};
ghost use Rattle.mk_geom.specs.declared.pages.Page.{Page};
ghost use Rattle.mk_books.specs.KnownPages.{Shows, is_bare, is_uncleaned, is_uncleaned_under, with_header, with_used};

use crate::kinds::kind_of;
use crate::page_map::PageMap;
use crate::sets::put;
use crate::sorting::{UNCLEANED, sort_by_header, sort_by_quarantine, sort_by_used};
use mk_geom::Page;

impl PageMap {
    /// A page's header word was stored. A page that becomes free may still be marked, so it is to be cleaned.
    #[inline(always)]
    pub fn header_stored(&mut self, page: u64, header: u64)
        requires { page < length self.old.pages }
        ensures shows { (pages : List Page) (freed : List ℕ) → Shows self.old pages freed
            → Shows self.new (with_header pages page header) freed }
        ensures this { is_uncleaned self.new page ≡ is_uncleaned_under self.old page header }
        ensures others { (number : ℕ) → (number ≡ page → ⊥)
            → is_uncleaned self.new number ≡ is_uncleaned self.old number }
    {
        let place = page as usize;
        let Page {
            header: found,
            used,
        } = self.pages[place];
        let before = kind_of(found);
        let was_resident = u64::from(before.is_resident());
        self.pages[place] = Page { header, used };
        let is_resident = sort_by_header(&mut self.sets, page, before, header, used);
        self.resident = self.resident + u64::from(is_resident) - was_resident;
    }

    /// A page's used word was stored.
    #[inline(always)]
    pub fn used_stored(&mut self, page: u64, used: u64)
        requires { page < length self.old.pages }
        ensures shows { (pages : List Page) (freed : List ℕ) → Shows self.old pages freed
            → Shows self.new (with_used pages page used) freed }
        ensures uncleaned { (number : ℕ) → is_uncleaned self.new number ≡ is_uncleaned self.old number }
    {
        let place = page as usize;
        let Page {
            header,
            used: before,
        } = self.pages[place];
        self.pages[place] = Page { header, used };
        sort_by_used(&mut self.sets, page, kind_of(header), before, used);
    }

    /// A page's quarantine word was stored, with these freed cells.
    pub fn quarantine_stored(&mut self, page: u64, freed: u64)
        requires { page < length self.old.pages }
        ensures shows { (pages : List Page) (freed_words : List ℕ) → Shows self.old pages freed_words
            → Shows self.new pages (slice_set freed_words page freed) }
        ensures uncleaned { (number : ℕ) → is_uncleaned self.new number ≡ is_uncleaned self.old number }
    {
        sort_by_quarantine(&mut self.sets, page, freed);
    }

    /// Puts a page among those that are to be cleaned, or takes it out.
    fn put_uncleaned(&mut self, page: u64, inside: bool)
        requires { page < length self.old.pages }
        ensures shows { (pages : List Page) (freed : List ℕ) → Shows self.old pages freed
            → Shows self.new pages freed }
        ensures this { is_uncleaned self.new page ≡ inside }
        ensures others { (number : ℕ) → (number ≡ page → ⊥)
            → is_uncleaned self.new number ≡ is_uncleaned self.old number }
    {
        put(&mut self.sets, UNCLEANED, page, inside);
    }

    /// A page was marked. If it is free, it is to be cleaned.
    #[inline(always)]
    pub fn marked(&mut self, page: u64)
        requires { page < length self.old.pages }
        ensures shows { (pages : List Page) (freed : List ℕ) → Shows self.old pages freed
            → Shows self.new pages freed }
        ensures this { is_uncleaned self.new page ≡ (is_bare self.old page || is_uncleaned self.old page) }
        ensures others { (number : ℕ) → (number ≡ page → ⊥)
            → is_uncleaned self.new number ≡ is_uncleaned self.old number }
    {
        if self.pages[page as usize].header == 0 {
            self.put_uncleaned(page, true);
        }
    }

    /// A page was cleaned: nothing of it is marked or black.
    pub fn cleaned(&mut self, page: u64)
        requires { page < length self.old.pages }
        ensures shows { (pages : List Page) (freed : List ℕ) → Shows self.old pages freed
            → Shows self.new pages freed }
        ensures this { is_uncleaned self.new page ≡ false }
        ensures others { (number : ℕ) → (number ≡ page → ⊥)
            → is_uncleaned self.new number ≡ is_uncleaned self.old number }
    {
        self.put_uncleaned(page, false);
    }
}
