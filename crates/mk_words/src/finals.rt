//! What is known of a table that has ended.
ghost use Rattle.std.specs.Prelude.{◌≡◌, ◌≤◌, ◌%◌, ◌^◌, count_ones, slice_index};
ghost use Rattle.std.specs.Mem.Slots.{slots_items, slots_len, IsFull};
ghost use Rattle.mk_core.specs.Layout.{count_of_words, index_of_named, NamesWord};
ghost use Rattle.mk_core.specs.declared.events.Word.TheVariants.{Quar};
ghost use Rattle.mk_words.specs.States.{freed_cells};

use crate::homes::MapHome;
use crate::indexes::index_of;
use crate::rule::View;
use atomic_table::{Closed, Seat as Token};
use mk_core::lower::books::QuarantineWord;
use mk_core::{TableWord, Word};
use std::alloc::Global;

/// The tallies that the history left, and how many freed bits the quarantine words have. The history itself stays
/// known, to proofs alone.
#[derive(Drop)]
pub struct Final {
    pub held: u64,
    pub fresh: u64,
    pub quarantined: u64,
    pub cycles: u64,
    pub released: u64,
    pub full: u64,
    pub(crate) memory: Token<MapHome, View>,
}

/// The word of that name.
pub(crate) fn last_word(closed: &Closed<MapHome, Global>, pages: u64, name: Word) -> u64
    requires pages { pages ≤ 4096 }
    requires full { IsFull closed.now.words }
    requires words { count_of_words pages ≤ slots_len closed.now.words }
    requires names { NamesWord pages name }
    ensures { result ≡ slice_index (slots_items closed.now.words) (index_of_named pages name) }
{
    closed.word(index_of(pages, TableWord::Named(name)))
}

/// How many freed bits a quarantine word has. Most words are 0.
fn freed_bits_of(word: u64) -> u64
    ensures exact { result ≡ count_ones (word % 2 ^ 32) }
    ensures few { result ≤ 32 }
{
    if word == 0 {
        return 0;
    }
    QuarantineWord::of(word).freed.count_ones() as u64
}

/// The freed bits of the quarantine words of this many pages.
pub(crate) fn freed_bits(closed: &Closed<MapHome, Global>, pages: u64) -> u64
    requires pages { pages ≤ 4096 }
    requires full { IsFull closed.now.words }
    requires words { count_of_words pages ≤ slots_len closed.now.words }
    ensures { result
        ≡ freed_cells (λ page. slice_index (slots_items closed.now.words) (index_of_named pages (Quar page))) pages }
{
    let mut freed = 0;
    let mut page = 0;
    while page < pages {
        let word = last_word(closed, pages, Word::Quar(page));
        freed += freed_bits_of(word);
        page += 1;
    }
    freed
}
