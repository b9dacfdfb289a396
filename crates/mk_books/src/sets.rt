//! Sets of page numbers, as bits: 64 pages in a word, and 64 words in a set, after a summary of which of them aren't 0.
//! So a set's next page is found by two words of it and the summary.
ghost use Rattle.std.specs.Prelude.{◌≡◌, ℕ, ◌+◌, ◌*◌, ◌<◌, ◌≤◌, ◌==◌, false, true, nat_lt, not, if◌then◌else◌};
ghost use Rattle.std.specs.{Int.bit_at};
ghost use Rattle.mk_books.specs.{KnownPages.IsNext};
ghost use Rattle.mk_books.specs.PageSets.{AreSets, PutsBits, PutsPage, StoresWord, is_between, is_member};

/// A summary and 64 words.
pub(crate) const SET_WORDS: usize = 65;

/// The place of the lowest 1.
fn lowest(word: u64) -> u64
    requires { 0 < word }
    ensures within { result < 64 }
    ensures one { bit_at word result ≡ 1 }
    ensures lowest { (below : ℕ) → below < result → bit_at word below ≡ 0 }
{
    u64::from(word.trailing_zeros())
}

/// The place of the lowest 1 that isn't below this one.
fn lowest_from(word: u64, from: u64) -> Option<u64>
    requires { from < 64 }
    ensures { IsNext (λ place. bit_at word place == 1) from 64 result }
{
    let rest = word >> from;
    if rest == 0 {
        None
    } else {
        Some(from + lowest(rest))
    }
}

/// The place of the lowest 1 that is above this one.
fn lowest_above(word: u64, place: u64) -> Option<u64>
    requires { place < 64 }
    ensures { IsNext (λ place. bit_at word place == 1) (place + 1) 64 result }
{
    let rest = word & (u64::MAX << place << 1);
    if rest == 0 { None } else { Some(lowest(rest)) }
}

/// The lowest page of a set that isn't below this one.
pub(crate) fn next_in(sets: &[u64], set: usize, from: u64) -> Option<u64>
    requires sets { AreSets sets.now }
    requires set { set < 20 }
    requires from { from < 4096 }
    ensures { IsNext (is_member sets.now set) from 4096 result }
{
    let summary = SET_WORDS * set;
    let word = from / 64;
    let here = sets[summary + 1 + word as usize];
    if let Some(bit) = lowest_from(here, from % 64) {
        return Some(64 * word + bit);
    }
    let later = lowest_above(sets[summary], word)?;
    let there = sets[summary + 1 + later as usize];
    Some(64 * later + lowest(there))
}

/// The word with this bit 1 or 0.
fn with_bit(word: u64, place: u64, is_one: bool) -> u64
    requires { place < 64 }
    ensures this { (bit_at result place == 1) ≡ is_one }
    ensures others { (other : ℕ) → other < 64 → (other ≡ place → ⊥) → bit_at result other ≡ bit_at word other }
    ensures none { word ≡ 0 → is_one ≡ false → result ≡ 0 }
{
    let bit = 1u64 << place;
    if is_one { word | bit } else { word & !bit }
}

/// Whether the bit at this place is 1.
fn has_one(word: u64, place: u64) -> bool
    requires { place < 64 }
    ensures { result ≡ (bit_at word place == 1) }
{
    word >> place & 1 == 1
}

/// The word with the bit at this place turned.
fn with_turned(word: u64, place: u64) -> u64
    requires { place < 64 }
    ensures this { (bit_at result place == 1) ≡ not (bit_at word place == 1) }
    ensures others { (other : ℕ) → (other ≡ place → ⊥) → bit_at result other ≡ bit_at word other }
{
    word ^ (1u64 << place)
}

/// The word that has a 1 at each of its places below this one.
pub(crate) fn ones_below(end: u64) -> u64
    ensures { (place : ℕ) → place < 64 → (bit_at result place == 1) ≡ nat_lt place end }
{
    if end < 64 { (1 << end) - 1 } else { u64::MAX }
}

/// The word with these bits all 1 or all 0.
#[inline(always)]
fn with_bits(word: u64, bits: u64, are_ones: bool) -> u64
    ensures { (place : ℕ) → place < 64
        → (bit_at result place == 1) ≡ (if bit_at bits place == 1 then are_ones else (bit_at word place == 1)) }
{
    if are_ones { word | bits } else { word & !bits }
}

/// Stores these bits as a word of a set.
#[inline(always)]
pub(crate) fn store_word(sets: &mut [u64], set: usize, word: u64, bits: u64)
    requires sets { AreSets sets.old }
    requires set { set < 20 }
    requires word { word < 64 }
    ensures { StoresWord sets.old sets.new set word bits }
{
    let summary = SET_WORDS * set;
    sets[summary + 1 + word as usize] = bits;
    sets[summary] = with_bit(sets[summary], word, bits != 0);
}

/// Puts a page into a set, or takes it out.
pub(crate) fn put(sets: &mut [u64], set: usize, page: u64, inside: bool)
    requires sets { AreSets sets.old }
    requires set { set < 20 }
    requires page { page < 4096 }
    ensures { PutsPage sets.old sets.new set page inside }
{
    let word = page / 64;
    let bits = sets[SET_WORDS * set + 1 + word as usize];
    if has_one(bits, page % 64) != inside {
        store_word(sets, set, word, with_turned(bits, page % 64));
    }
}

/// Puts a page into a set. The word is stored even if the page is in there already; mostly it isn't.
#[inline(always)]
pub(crate) fn insert(sets: &mut [u64], set: usize, page: u64)
    requires sets { AreSets sets.old }
    requires set { set < 20 }
    requires page { page < 4096 }
    ensures { PutsPage sets.old sets.new set page true }
{
    let word = page / 64;
    let bits = sets[SET_WORDS * set + 1 + word as usize];
    store_word(sets, set, word, with_bit(bits, page % 64, true));
}

/// Takes a page out of a set. The word is stored even if the page isn't in there; mostly it is. If other pages are left
/// in the word, the summary stays.
#[inline(always)]
pub(crate) fn remove(sets: &mut [u64], set: usize, page: u64)
    requires sets { AreSets sets.old }
    requires set { set < 20 }
    requires page { page < 4096 }
    ensures { PutsPage sets.old sets.new set page false }
{
    let word = page / 64;
    let place = SET_WORDS * set + 1 + word as usize;
    let rest = with_bit(sets[place], page % 64, false);
    sets[place] = rest;
    if rest == 0 {
        let summary = SET_WORDS * set;
        sets[summary] = with_bit(sets[summary], word, false);
    }
}

/// Puts the pages of a word of a set that have a 1 in these bits into it, or takes them out.
#[inline(always)]
pub(crate) fn put_bits(sets: &mut [u64], set: usize, word: u64, bits: u64, inside: bool)
    requires sets { AreSets sets.old }
    requires set { set < 20 }
    requires word { word < 64 }
    ensures { PutsBits sets.old sets.new set word bits inside }
{
    let found = sets[SET_WORDS * set + 1 + word as usize];
    store_word(sets, set, word, with_bits(found, bits, inside));
}

/// The bits of those pages in a word of a set that are from one page on and below another.
#[inline(always)]
pub(crate) fn bits_between(word: u64, from: u64, end: u64) -> u64
    requires end { 64 * word < end }
    ensures { (place : ℕ) → place < 64 → (bit_at result place == 1) ≡ is_between from end (64 * word + place) }
{
    let first = from.saturating_sub(64 * word);
    ones_below(end - 64 * word) & !ones_below(first)
}
