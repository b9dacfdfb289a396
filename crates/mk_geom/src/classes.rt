//! The sizes of objects.
ghost use Rattle.std.specs.Prelude.{◌≡◌, ℕ, ◌/◌, ◌<◌, ◌≤◌, ◌↔◌, ◌⊎◌, IfSome, IsNone};
ghost use Rattle.mk_geom.specs.Addresses.{class_for, class_words_of, cells_of, run_pages_of};

/// How many words a page has.
pub const PAGE_WORDS: u64 = 64;

/// How many words a cell has, by class.
const CLASS_WORDS: [u64; 8] = [2, 4, 6, 8, 12, 16, 24, 32];

/// How many words the largest object has that has a class.
pub const SMALL_WORDS: u64 = 32;

/// The class of an object, by its size in pairs of words, rounded up. A cell has whole pairs.
const CLASS_BY_PAIRS: [u64; 17] = [0, 0, 1, 2, 3, 4, 4, 5, 5, 6, 6, 6, 6, 7, 7, 7, 7];

/// How many cells a block has, by class.
const CELLS: [u64; 8] = [32, 16, 10, 8, 5, 4, 2, 2];

/// 1024 divided by the words of a cell, rounded up, by class. The number of a word on its page times this, divided by
/// 1024, is the number of the word's cell. So no division by the cell's words is needed.
const SHARES: [u64; 8] = [512, 256, 171, 128, 86, 64, 43, 32];

/// The size class of an object of this many words. An object of more than 32 words is large, and has no class.
#[tactic(auto, using(crate::proofs::ClassTable::classes_listed))]
pub fn class_of(words: u64) -> Option<u64>
    ensures exact { result ≡ class_for words }
    ensures in_range { IfSome result (λ class. class < 8) }
    ensures holds { IfSome result (λ class. words ≤ class_words_of class) }
    ensures least { IfSome result (λ class. (lower : ℕ) → lower < class → class_words_of lower < words) }
    ensures none { IsNone result ↔ ((words ≡ 0) ⊎ (32 < words)) }
{
    if words == 0 || words > SMALL_WORDS {
        return None;
    }
    Some(CLASS_BY_PAIRS[words.div_ceil(2) as usize])
}

/// How many words a cell of the class has.
pub fn class_words(class: u64) -> u64
    requires { class < 8 }
    ensures { result ≡ class_words_of class }
{
    CLASS_WORDS[class as usize]
}

/// How many cells a block of the class has.
#[tactic(auto, using(crate::proofs::ClassTable::cells_listed))]
pub fn cells(class: u64) -> u64
    requires { class < 8 }
    ensures { result ≡ cells_of class }
{
    CELLS[class as usize]
}

/// The cell of a block of the class that a word of the page is in; both are counted from 0. The word isn't in the
/// block's tail.
#[inline(always)]
#[tactic(auto, using(crate::proofs::ClassTable::divided_by_shares))]
pub fn index_in_block(class: u64, word: u64) -> u64
    requires class { class < 8 }
    requires word { word < 64 }
    ensures { result ≡ word / class_words_of class }
{
    word * SHARES[class as usize] / 1024
}

/// How many pages a run has for an object of this many words.
pub fn run_pages(words: u64) -> u64
    ensures { result ≡ run_pages_of words }
{
    words.div_ceil(PAGE_WORDS)
}
