//! Released cells are wiped: their words are looked at, in a table of this many pages, and what isn't 0 is stored to.
ghost use Rattle.std.specs.Prelude.{◌≡◌, ◌<◌, ◌≤◌, ◌+◌, ◌*◌, ◌/◌, ℕ, true, slice_index};
ghost use Rattle.mk_core.specs.{Words.has_bit, Cells.words_under};
ghost use Rattle.mk_geom.specs.Addresses.{header_of};
ghost use Rattle.mk_words.specs.States.{now_of};
ghost use Rattle.mk_cycle.specs.EngineLaw.{IsTurnAmong};
ghost use Rattle.mk_cycle.specs.Freeing.{AreFreeCells, GivesNothingBack, IsUnmappedWord, IsZero};

use crate::cleaning::are_zero;
use crate::reading::ReadHeader;
use mk_core::{Word, bit, lowest_bit, without};
use mk_geom::PAGE_WORDS;
use mk_words::{Turn, Words};

/// How many pairs of words a page has.
const PAGE_PAIRS: u64 = 32;

/// Looks at a word of the heap, which is on this page.
#[inline(always)]
fn look_at_heap(turn: &mut Turn, words: &Words, pages: u64, page: u64, word: u64) -> u64
    requires turn { IsTurnAmong 4 words.now turn.old.pass pages }
    requires within { word < 64 * words.now.config.pages }
    requires page { page ≡ word / 64 }
    ensures frees { GivesNothingBack turn.old.pass turn.new.pass }
    ensures reads { result ≡ slice_index (now_of turn.new.pass).words.heap word }
{
    turn.look_on_page(words, pages, page, Word::Heap(word))
}

/// Sets a word of no mapped allocation, which is on this page, to 0.
#[inline(always)]
fn wipe_word(turn: &mut Turn, words: &Words, pages: u64, page: u64, word: u64)
    requires turn { IsTurnAmong 4 words.now turn.old.pass pages }
    requires page { page ≡ word / 64 }
    requires unmapped { IsUnmappedWord turn.old.pass word }
    ensures frees { GivesNothingBack turn.old.pass turn.new.pass }
    ensures zero { IsZero turn.new.pass word }
{
    if look_at_heap(turn, words, pages, page, word) != 0 {
        turn.wipe(words, word);
    }
}

/// Looks at two words of the heap, which are on this page. Returns true only if both are 0.
#[inline(always)]
fn are_both_zero(turn: &mut Turn, words: &Words, pages: u64, page: u64, word: u64) -> bool
    requires turn { IsTurnAmong 4 words.now turn.old.pass pages }
    requires first_page { page ≡ word / 64 }
    requires second_page { page ≡ (word + 1) / 64 }
    requires first { IsUnmappedWord turn.old.pass word }
    requires second { IsUnmappedWord turn.old.pass (word + 1) }
    ensures frees { GivesNothingBack turn.old.pass turn.new.pass }
    ensures first { result ≡ true → IsZero turn.new.pass word }
    ensures second { result ≡ true → IsZero turn.new.pass (word + 1) }
{
    words.is_within_limits();
    let first = look_at_heap(turn, words, pages, page, word);
    let second = look_at_heap(turn, words, pages, page, word + 1);
    are_zero(first, second)
}

/// Sets two words of this page to 0. Most are 0 already, so both are looked at first.
#[inline(always)]
fn wipe_two(turn: &mut Turn, words: &Words, pages: u64, page: u64, word: u64)
    requires turn { IsTurnAmong 4 words.now turn.old.pass pages }
    requires first_page { page ≡ word / 64 }
    requires second_page { page ≡ (word + 1) / 64 }
    requires first { IsUnmappedWord turn.old.pass word }
    requires second { IsUnmappedWord turn.old.pass (word + 1) }
    ensures frees { GivesNothingBack turn.old.pass turn.new.pass }
    ensures first { IsZero turn.new.pass word }
    ensures second { IsZero turn.new.pass (word + 1) }
{
    words.is_within_limits();
    if are_both_zero(turn, words, pages, page, word) {
        return;
    }
    wipe_word(turn, words, pages, page, word);
    wipe_word(turn, words, pages, page, word + 1);
}

/// Sets this many pairs of words of a page to 0, from a word of it on.
#[inline(always)]
fn wipe_on_page(turn: &mut Turn, words: &Words, pages: u64, page: u64, first: u64, pairs: u64)
    requires turn { IsTurnAmong 4 words.now turn.old.pass pages }
    requires page { page < words.now.config.pages }
    requires within { first + 2 * pairs ≤ 64 }
    requires unmapped { (i : ℕ) → i < 2 * pairs → IsUnmappedWord turn.old.pass (64 * page + first + i) }
    ensures frees { GivesNothingBack turn.old.pass turn.new.pass }
    ensures zeros { (i : ℕ) → i < 2 * pairs → IsZero turn.new.pass (64 * page + first + i) }
{
    words.is_within_limits();
    let start = PAGE_WORDS * page + first;
    for i in 0..pairs {
        wipe_two(turn, words, pages, page, start + 2 * i);
    }
}

/// Sets this many pairs of words, from a first one on, to 0. They may go over several pages. A pair is on one page,
/// since its first word is even.
#[cold]
#[inline(never)]
fn wipe_over_pages(turn: &mut Turn, words: &Words, pages: u64, first: u64, pairs: u64)
    requires turn { IsTurnAmong 4 words.now turn.old.pass pages }
    requires unmapped { (i : ℕ) → i < 2 * pairs → IsUnmappedWord turn.old.pass (2 * first + i) }
    ensures frees { GivesNothingBack turn.old.pass turn.new.pass }
    ensures zeros { (i : ℕ) → i < 2 * pairs → IsZero turn.new.pass (2 * first + i) }
{
    words.is_within_limits();
    for i in 0..pairs {
        let pair = first + i;
        wipe_two(turn, words, pages, pair / PAGE_PAIRS, 2 * pair);
    }
}

/// Sets the words of a cell to 0, which has this many pairs of words. Those of a block are on its page.
#[inline(always)]
fn wipe_cell(turn: &mut Turn, words: &Words, pages: u64, page: u64, index: u64, pairs: u64)
    requires turn { IsTurnAmong 4 words.now turn.old.pass pages }
    requires within { page < words.now.config.pages }
    requires index { index < 64 }
    requires few { pairs < 2049 }
    requires unmapped { (i : ℕ) → i < 2 * pairs
        → IsUnmappedWord turn.old.pass (64 * page + index * (2 * pairs) + i) }
    ensures frees { GivesNothingBack turn.old.pass turn.new.pass }
    ensures zeros { (i : ℕ) → i < 2 * pairs → IsZero turn.new.pass (64 * page + index * (2 * pairs) + i) }
{
    words.is_within_limits();
    let size = 2 * pairs;
    let first = index * size;
    if first + size <= PAGE_WORDS {
        wipe_on_page(turn, words, pages, page, first, pairs);
    } else {
        wipe_over_pages(turn, words, pages, PAGE_PAIRS * page + index * pairs, pairs);
    }
}

/// Sets the words of those cells of a page to 0 whose bits are set. It goes from bit to bit.
#[inline(never)]
fn wipe_cells(turn: &mut Turn, words: &Words, pages: u64, page: u64, cells: u64, pairs: u64)
    requires turn { IsTurnAmong 4 words.now turn.old.pass pages }
    requires within { page < words.now.config.pages }
    requires few { pairs < 2049 }
    requires unmapped { (k i : ℕ) → has_bit cells k ≡ true → i < 2 * pairs
        → IsUnmappedWord turn.old.pass (64 * page + k * (2 * pairs) + i) }
    ensures frees { GivesNothingBack turn.old.pass turn.new.pass }
    ensures zeros { (k : ℕ) → k < 32 → (i : ℕ) → has_bit cells k ≡ true → i < 2 * pairs
        → IsZero turn.new.pass (64 * page + k * (2 * pairs) + i) }
{
    words.is_within_limits();
    let mut rest = cells;
    while rest != 0 {
        let index = lowest_bit(rest);
        wipe_cell(turn, words, pages, page, index, pairs);
        rest = without(rest, bit(index));
    }
}

/// Sets the words of these released cells of a page to 0. Those of an unmapped run aren't looked at: its Free wiped
/// them.
#[inline(always)]
pub(crate) fn wipe_released(
    turn: &mut Turn,
    words: &Words,
    pages: u64,
    page: u64,
    header: &ReadHeader,
    cells: u64,
)
    requires turn { IsTurnAmong 4 words.now turn.old.pass pages }
    requires within { page < words.now.config.pages }
    requires cells { AreFreeCells turn.old.pass page header.now cells }
    ensures frees { GivesNothingBack turn.old.pass turn.new.pass }
    ensures zeros { (k : ℕ) → k < 32 → (i : ℕ) → has_bit cells k ≡ true → i < words_under (header_of header.now)
        → IsZero turn.new.pass (64 * page + k * words_under (header_of header.now) + i) }
{
    if header.is_unmapped() {
        return;
    }
    wipe_cells(turn, words, pages, page, cells, header.pairs());
}
