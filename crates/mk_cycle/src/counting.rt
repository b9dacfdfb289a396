//! What the words of a page say of a cycle: what was released on it, by its snapshot and marks, before that is given
//! back; and how much of that was held.
ghost use Rattle.std.specs.Prelude.{◌≡◌, ◌≤◌, ◌*◌, true, false, bit_and, count_ones, if◌then◌else◌};
ghost use Rattle.mk_core.specs.{Words.without, Cells.{is_unmapped_header, words_under}, Conditions.is_word};
ghost use Rattle.mk_core.specs.Words.{named_word};
ghost use Rattle.mk_geom.specs.Addresses.{header_of};
ghost use Rattle.mk_words.specs.States.{now_of};
ghost use Rattle.mk_cycle.specs.{Freeing.IsOfOnePage, EngineLaw.{IsTurnAmong, is_register}};
ghost use Rattle.mk_cycle.specs.Freeing.{GivesNothingBack};

use crate::finishing::Released;
use crate::reading::ReadHeader;
use crate::turn_steps::look_among;
use mk_core::{Word, without};
use mk_words::{Turn, Words};

/// How many bits of a word are 1. It isn't inlined, so that who mostly needn't count them doesn't.
#[inline(never)]
fn count_more(word: u64) -> u64
    ensures exact { result ≡ count_ones word }
    ensures few { result ≤ 64 }
{
    u64::from(word.count_ones())
}

/// How many bits of a word are 1. Most snapshots have one cell, the first, of which none is marked.
#[inline(always)]
fn count_bits(word: u64) -> u64
    ensures exact { result ≡ count_ones word }
    ensures few { result ≤ 64 }
{
    if word < 2 {
        return word;
    }
    count_more(word)
}

/// What the words of a page say: its released cells, their words, and its marked cells of the snapshot.
pub(crate) fn released_cells(snapshot: u64, marks: u64, header: &ReadHeader) -> Released
    ensures count { result.count ≡ count_ones (without snapshot marks) }
    ensures words { result.words ≡ count_ones (without snapshot marks) * words_under (header_of header.now) }
    ensures kept { result.kept ≡ count_ones (bit_and snapshot marks) }
    ensures few { IsOfOnePage result }
{
    let count = count_bits(without(snapshot, marks));
    Released {
        count,
        words: count * header.size(),
        kept: count_bits(snapshot & marks),
    }
}

/// How many of the words that were released on a page with this header were held until then: none of an unmapped run.
#[inline(always)]
pub(crate) fn held_words(header: &ReadHeader, words: u64) -> u64
    ensures is { result ≡ (if is_unmapped_header (header_of header.now) then 0 else words) }
    ensures part { result ≤ words }
{
    if header.is_unmapped() { 0 } else { words }
}

/// Looks at a word that is no register, while nothing is given back, in a table of this many pages.
#[inline(always)]
pub(crate) fn look(turn: &mut Turn, words: &Words, pages: u64, x: Word) -> u64
    requires turn { IsTurnAmong 4 words.now turn.old.pass pages }
    requires in_range { is_word words.now.config x ≡ true }
    requires no_register { is_register x ≡ false }
    ensures frees { GivesNothingBack turn.old.pass turn.new.pass }
    ensures reads { result ≡ named_word (now_of turn.new.pass).words x }
{
    look_among(turn, words, pages, x)
}
