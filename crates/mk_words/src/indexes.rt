//! Where each word stands in the table.
ghost use Rattle.std.specs.Prelude.{◌≡◌, ◌≤◌};
ghost use Rattle.mk_core.specs.declared.accesses.TableWord.TheVariants.{Named};
ghost use Rattle.mk_core.specs.Layout.{count_of_words, index_of, index_of_named, IsOfTable, NamesWord};
ghost use Rattle.mk_words.specs.PageMaps.{IsOnPage};

use mk_core::{TableWord, Word};
use mk_geom::PAGE_WORDS;

/// How many words the largest table has, that of 4,096 pages.
pub(crate) const MOST_WORDS: usize = 656 + 77 * 4096;

/// How many words a table of this many pages has.
pub(crate) fn count_of_words(pages: u64) -> usize
    requires { pages ≤ 4096 }
    ensures exact { result ≡ count_of_words pages }
    ensures most { result ≤ 316048 }
{
    (656 + 77 * pages) as usize
}

/// The page of a word of the heap, and 0 for any other word.
#[inline(always)]
pub(crate) fn page_of(word: TableWord) -> u64
    ensures { IsOnPage result word }
{
    match word {
        TableWord::Named(Word::Heap(place)) => place / PAGE_WORDS,
        _ => 0,
    }
}

/// The index of a word that has a name, in a table of this many pages. A word of the heap is on this page.
#[inline(always)]
fn index_of_named(pages: u64, heap_page: u64, word: Word) -> usize
    requires pages { pages ≤ 4096 }
    requires names { NamesWord pages word }
    requires page { IsOnPage heap_page (Named word) }
    ensures { result ≡ index_of_named pages word }
{
    (match word {
        Word::Phase => 0,
        Word::Held => 32,
        Word::Fresh => 33,
        Word::Cycles => 34,
        Word::Released => 35,
        Word::Full => 36,
        Word::Gate(caller) => 48 + 16 * caller,
        Word::Reg { caller, register } => 304 + 16 * caller + register,
        Word::Global(global) => 560 + global,
        Word::Head(page) => 640 + page,
        Word::Used(page) => 640 + pages + page,
        Word::Quar(page) => 640 + 2 * pages + page,
        Word::Mark(page) => 640 + 3 * pages + page,
        Word::Black(page) => 640 + 4 * pages + page,
        Word::Dirty(page) => 720 + 5 * pages + 72 * page,
        Word::Heap(place) => 656 + 5 * pages + place + 8 * heap_page,
    }) as usize
}

/// The index of a word, in a table of this many pages. A word of the heap is on this page.
#[inline(always)]
pub(crate) fn index_near(pages: u64, page: u64, word: TableWord) -> usize
    requires pages { pages ≤ 4096 }
    requires names { IsOfTable pages word }
    requires page { IsOnPage page word }
    ensures { result ≡ index_of pages word }
{
    match word {
        TableWord::Turn => 16,
        TableWord::Named(word) => index_of_named(pages, page, word),
    }
}

/// The index of a word, in a table of this many pages.
#[inline(always)]
pub(crate) fn index_of(pages: u64, word: TableWord) -> usize
    requires pages { pages ≤ 4096 }
    requires names { IsOfTable pages word }
    ensures { result ≡ index_of pages word }
{
    index_near(pages, page_of(word), word)
}
