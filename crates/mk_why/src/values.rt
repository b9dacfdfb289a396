//! What values point into, and which words of an allocation are scanned.
ghost use Rattle.std.specs.Prelude.{◌≡◌, ◌+◌, ◌*◌, ◌≤◌, ℕ, true};
ghost use Rattle.mk_core.specs.{Allocations.{placed_at, storage_words}, Cycles.is_scanned_allocation};
ghost use Rattle.mk_why.specs.Searching.{AreScannedFrom, IsFirstWord, IsBasePointed};
ghost use Rattle.mk_why.specs.Stops.{IsStill, LooksWhileStill};
ghost use Rattle.mk_why.specs.Stops.{base_at, view_by};

use crate::stepping::look_at;
use mk_core::{Word, has_bit, has_no_pointers, words_under};
use mk_geom::PAGE_WORDS;
use mk_sweep::lower::words::{Stopped, Words, cell_pointed};

/// The first heap word of the allocation into which a value points.
pub(crate) fn base_pointed(words: &Words, stop: &mut Stopped, value: u64) -> Option<u64>
    requires one_table { stop.old.pass.table ≡ words.now }
    requires still { IsStill stop.old.pass }
    ensures on { LooksWhileStill stop.old stop.new }
    ensures points { IsBasePointed words.now.config (view_by stop.old.pass) value result }
{
    words.is_within_limits();
    let Some(cell) = cell_pointed(words, stop, value) else {
        return None;
    };
    let used = look_at(words, stop, Word::Used(cell.page));
    if !has_bit(used, cell.index) {
        return None;
    }
    let header = look_at(words, stop, Word::Head(cell.page));
    Some(PAGE_WORDS * cell.page + cell.index * words_under(header))
}

/// How many words are scanned of the allocation that begins at this heap word: all of a mapped one that isn't leaf.
pub(crate) fn scanned_size(words: &Words, stop: &mut Stopped, base: u64) -> u64
    requires one_table { stop.old.pass.table ≡ words.now }
    requires still { IsStill stop.old.pass }
    requires base { IsFirstWord (view_by stop.old.pass) base }
    ensures on { LooksWhileStill stop.old stop.new }
    ensures scanned { AreScannedFrom words.now.config (view_by stop.old.pass) base result }
    ensures whole { (b : ℕ) → base_at (view_by stop.old.pass) b ≡ base
        → is_scanned_allocation words.now.config (placed_at (view_by stop.old.pass).allocations b) ≡ true
        → result ≡ storage_words words.now.config (placed_at (view_by stop.old.pass).allocations b) }
    ensures within { base + result ≤ 64 * words.now.config.pages }
{
    words.is_within_limits();
    let header = look_at(words, stop, Word::Head(base / PAGE_WORDS));
    if has_no_pointers(header) {
        return 0;
    }
    words_under(header)
}
