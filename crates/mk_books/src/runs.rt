//! What a page map is told of runs: the header words of all their pages at once.
ghost use Rattle.std.specs.Prelude.{◌≡◌, ◌+◌, ◌*◌, ◌≤◌, ◌^◌, ◌<◌, true, false, length};
ghost use Rattle.mk_geom.specs.PageUses.{PartOfRun};
ghost use Rattle.mk_books.specs.PageSets.{AreSets, MovesPages, PutsThree, is_between};
ghost use Rattle.mk_books.specs.KnownPages.{AreBare, HeadersSay, RunIsTold, StandsOn, run_word, with_headers};

use crate::page_map::PageMap;
use crate::sets::{bits_between, ones_below, put_bits};
use crate::sorting::{FREE, IN_USE, UNCLEANED};
use mk_geom::Page;

/// Stores header words on this many pages: the first gets `head`, the second `next`, and each of the others 16 more
/// than the page before it.
#[inline(always)]
fn store_headers(pages: &mut [Page], first: u64, count: u64, head: u64, next: u64)
    requires within { first + count ≤ length pages.old }
    requires few { next + 16 * count < 2 ^ 64 }
    ensures { pages.new ≡ with_headers pages.old first count (run_word head next) }
{
    for distance in 0..count {
        let place = (first + distance) as usize;
        let Page { header: _, used } = pages[place];
        let header = if distance == 0 {
            head
        } else {
            next + 16 * (distance - 1)
        };
        pages[place] = Page { header, used };
    }
}

/// Stores 0 as the header word of this many pages.
#[inline(always)]
fn clear_headers(pages: &mut [Page], first: u64, count: u64)
    requires within { first + count ≤ length pages.old }
    ensures { pages.new ≡ with_headers pages.old first count (λ _. 0) }
{
    for distance in 0..count {
        let place = (first + distance) as usize;
        let Page { header: _, used } = pages[place];
        pages[place] = Page { header: 0, used };
    }
}

/// Moves the pages of a word of the sets that have a 1 in these bits. As free ones they are in the sets of the free and
/// of the uncleaned pages, and else in that of the pages in use.
#[inline(always)]
fn move_word(sets: &mut [u64], word: u64, bits: u64, free: bool)
    requires sets { AreSets sets.old }
    requires word { word < 64 }
    ensures { PutsThree sets.old sets.new word bits free }
{
    put_bits(sets, FREE, word, bits, free);
    put_bits(sets, IN_USE, word, bits, !free);
    put_bits(sets, UNCLEANED, word, bits, free);
}

/// Moves pages as `move_pages` does, a word after the other.
#[inline(never)]
fn move_words(sets: &mut [u64], from: u64, end: u64, free: bool)
    requires sets { AreSets sets.old }
    requires end { end ≤ 4096 }
    ensures { MovesPages sets.old sets.new (is_between from end) free }
{
    for word in from / 64..end.div_ceil(64) {
        let bits = bits_between(word, from, end);
        move_word(sets, word, bits, free);
    }
}

/// Moves the pages from one on and below another. As free ones they are in the sets of the free and of the uncleaned
/// pages, and else in that of the pages in use. Those of a run are mostly in one word of the sets.
#[inline(always)]
fn move_pages(sets: &mut [u64], from: u64, end: u64, free: bool)
    requires sets { AreSets sets.old }
    requires some { from < end }
    requires end { end ≤ 4096 }
    ensures { MovesPages sets.old sets.new (is_between from end) free }
{
    let word = from / 64;
    let last = end - 64 * word;
    if last < 64 {
        let bits = ones_below(last) & !ones_below(from % 64);
        move_word(sets, word, bits, free);
        return;
    }
    move_words(sets, from, end, free);
}

impl PageMap {
    /// Tells the map that a mapped run was made of this many free pages. The first page's header word is `head`, the
    /// second's is `next`, and each of the others is 16 more than that of the page before it.
    #[inline(never)]
    pub fn run_made(&mut self, first: u64, count: u64, head: u64, next: u64)
        requires within { first + count ≤ length self.old.pages }
        requires some { 0 < count }
        requires few { next + 16 * count < 2 ^ 64 }
        requires before { AreBare self.old.pages first count }
        requires after { HeadersSay (PartOfRun true) count (run_word head next) }
        ensures { RunIsTold self.old first count (run_word head next) self.new }
    {
        store_headers(&mut self.pages, first, count, head, next);
        move_pages(&mut self.sets, first, first + count, false);
        self.resident = self.resident + count;
    }

    /// Tells the map that this many pages of a mapped run were unmapped. Their header words are now `head`, `next`, and
    /// so on, each 16 more.
    #[inline(never)]
    pub fn run_unmapped(&mut self, first: u64, count: u64, head: u64, next: u64)
        requires within { first + count ≤ length self.old.pages }
        requires few { next + 16 * count < 2 ^ 64 }
        requires before { StandsOn (PartOfRun true) self.old.pages first count }
        requires after { HeadersSay (PartOfRun false) count (run_word head next) }
        ensures { RunIsTold self.old first count (run_word head next) self.new }
    {
        store_headers(&mut self.pages, first, count, head, next);
        self.resident = self.resident - count;
    }

    /// Tells the map that this many pages of an unmapped run are free now: their header words are 0. They are
    /// uncleaned.
    #[inline(never)]
    pub fn run_freed(&mut self, first: u64, count: u64)
        requires within { first + count ≤ length self.old.pages }
        requires some { 0 < count }
        requires before { StandsOn (PartOfRun false) self.old.pages first count }
        ensures { RunIsTold self.old first count (λ _. 0) self.new }
    {
        clear_headers(&mut self.pages, first, count);
        move_pages(&mut self.sets, first, first + count, true);
    }
}
