//! A page's header word with what it says. The giving back needs several numbers of it, so the word is decoded once a
//! page.
ghost use Rattle.std.specs.Prelude.{◌≡◌, ◌+◌, ◌*◌, ◌≤◌};
ghost use Rattle.mk_core.specs.{Cells.{is_unmapped_header, words_under}, Counts.in_a_word};
ghost use Rattle.mk_geom.specs.Addresses.{head_page_under, header_of};
ghost use Rattle.mk_words.specs.Below.Laws.Theorems.{run_count};
ghost use Rattle.mk_cycle.specs.Freeing.{heads_unmapped_pages};

use mk_geom::{Header, PAGE_WORDS, class_words, decode};
use std::marker::Model;

/// A header word, and what it says of the page: the words of a cell, whether its run is unmapped, how far the head of
/// its run is, and how many pages the run has that it heads.
#[derive(Drop)]
pub(crate) struct ReadHeader {
    word: u64,
    size: u64,
    unmapped: bool,
    distance: u64,
    pages: u64,
}

impl Model for ReadHeader {
    ghost use Rattle.std.specs.Prelude.{ℕ};

    ghost Value = { ℕ };

    ghost use Rattle.mk_cycle.specs.Freeing.{IsRight};

    ghost view = { λ h. h.word };

    ghost invariant = { λ h. IsRight h.word h.size h.unmapped h.distance h.pages };
}

impl ReadHeader {
    /// Reads a header word.
    #[inline(always)]
    pub(crate) fn of(word: u64) -> ReadHeader
        ensures { result ≡ word }
    {
        match decode(word) {
            Some(Header::Block(class) | Header::LeafBlock(class)) => ReadHeader {
                word,
                size: class_words(class),
                unmapped: false,
                distance: 0,
                pages: 0,
            },
            Some(Header::Run { pages, mapped }) => ReadHeader {
                word,
                size: PAGE_WORDS * pages,
                unmapped: !mapped,
                distance: 0,
                pages,
            },
            Some(Header::LeafRun { pages }) => ReadHeader {
                word,
                size: PAGE_WORDS * pages,
                unmapped: false,
                distance: 0,
                pages,
            },
            Some(Header::Later { distance, mapped }) => ReadHeader {
                word,
                size: 0,
                unmapped: !mapped,
                distance,
                pages: 0,
            },
            Some(Header::Free) | None => ReadHeader {
                word,
                size: 0,
                unmapped: false,
                distance: 0,
                pages: 0,
            },
        }
    }

    /// The words of each cell under it.
    #[inline(always)]
    pub(crate) fn size(&self) -> u64
        ensures exact { result ≡ words_under (header_of self.now) }
        ensures few { result ≤ 4096 }
    {
        self.size
    }

    /// The pairs of words of each cell under it. Cells have whole pairs.
    #[inline(always)]
    #[tactic(auto, using(crate::proofs::Pairs::have_whole_pairs))]
    pub(crate) fn pairs(&self) -> u64
        ensures exact { 2 * result ≡ words_under (header_of self.now) }
        ensures few { result ≤ 2048 }
    {
        self.size / 2
    }

    /// Whether the page is one of an unmapped run.
    #[inline(always)]
    pub(crate) fn is_unmapped(&self) -> bool
        ensures { result ≡ is_unmapped_header (header_of self.now) }
    {
        self.unmapped
    }

    /// Whether an unmapped run of several pages has its head at the page.
    #[inline(always)]
    pub(crate) fn heads_unmapped_pages(&self) -> bool
        ensures { result ≡ heads_unmapped_pages (header_of self.now) }
    {
        self.unmapped && self.pages > 1
    }

    /// The head page of the run that the page is of; another page is its own.
    #[inline(always)]
    pub(crate) fn head_page(&self, page: u64) -> u64
        ensures { result ≡ head_page_under (header_of self.now) page }
    {
        page.saturating_sub(self.distance)
    }

    /// Where the run ends that has its head at this page. Another page's end is the page itself.
    #[inline(always)]
    pub(crate) fn run_end(&self, page: u64) -> u64
        ensures { result ≡ in_a_word (page + run_count (header_of self.now)) }
    {
        page.saturating_add(self.pages)
    }
}
