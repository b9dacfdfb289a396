//! The sweep: page by page, each word of each used cell that may have pointers is looked at, and what it points into is
//! marked.
ghost use Rattle.std.specs.{Prelude.{◌≡◌, ℕ, ◌+◌, ◌<◌, ◌≤◌, true, false, length}, List.range_with_len};
ghost use Rattle.mk_core.specs.{Cells.{has_no_pointers, header_in}, Words.{header_at, used_at}};
ghost use Rattle.mk_cycle.specs.{Below.Words.States.world_of, Stops.still_words};
ghost use Rattle.mk_sweep.specs.Sweeps.{IsScannedWord, IsSweeping, SweepsWords, words_below, words_if};
ghost use Rattle.mk_sweep.specs.Sweeps.{words_on};

use crate::stepping::{look_at, look_at_word};
use crate::values::mark_value;
use mk_core::{Word, cells_under, has_bit, has_no_pointers, words_under};
use mk_cycle::lower::words::{Stopped, Words};
use mk_geom::PAGE_WORDS;

/// Looks at this many words, from the first one on, and marks what each points into.
fn sweep_words(words: &Words, stop: &mut Stopped, first: u64, size: u64)
    requires one_table { stop.old.pass.table ≡ words.now }
    requires sweeping { IsSweeping stop.old.pass }
    requires few { first + size < 1000000 }
    requires scanned { (i : ℕ) → i < size
        → IsScannedWord words.now.config (world_of stop.old.pass).allocations (first + i) }
    ensures sweeps { SweepsWords words.now.config.pages stop.old stop.new (range_with_len first size) }
{
    for i in 0..size {
        let value = look_at_word(words, stop, first + i);
        mark_value(words, stop, value);
    }
}

/// Sweeps a cell, if it is used. Returns how many words it looked at.
fn sweep_if_used(words: &Words, stop: &mut Stopped, used: bool, first: u64, size: u64) -> u64
    requires one_table { stop.old.pass.table ≡ words.now }
    requires sweeping { IsSweeping stop.old.pass }
    requires few { first + size < 1000000 }
    requires scanned { used ≡ true → (i : ℕ) → i < size
        → IsScannedWord words.now.config (world_of stop.old.pass).allocations (first + i) }
    ensures sweeps { SweepsWords words.now.config.pages stop.old stop.new (words_if used first size) }
    ensures looks { result ≡ length (words_if used first size) }
    ensures few { result ≤ size }
{
    if !used {
        return 0;
    }
    sweep_words(words, stop, first, size);
    size
}

/// Sweeps the used cells of a page. Returns how many words it looked at.
fn sweep_cells(words: &Words, stop: &mut Stopped, page: u64, header: u64, used: u64) -> u64
    requires one_table { stop.old.pass.table ≡ words.now }
    requires sweeping { IsSweeping stop.old.pass }
    requires page { page < words.now.config.pages }
    requires header { header ≡ header_at (still_words stop.old.pass) page }
    requires used { used ≡ used_at (still_words stop.old.pass) page }
    requires scanned { has_no_pointers (header_in (still_words stop.old.pass) page) ≡ false }
    ensures sweeps { SweepsWords words.now.config.pages stop.old stop.new (words_on (still_words stop.old.pass) page) }
    ensures looks { result ≡ length (words_on (still_words stop.old.pass) page) }
    ensures few { result ≤ 131072 }
{
    words.is_within_limits();
    let size = words_under(header);
    let mut looks = 0;
    for index in 0..cells_under(header) {
        let first = PAGE_WORDS * page + index * size;
        looks += sweep_if_used(words, stop, has_bit(used, index), first, size);
    }
    looks
}

/// Sweeps a page, if its cells may have pointers. Returns how many words it looked at.
fn sweep_page(words: &Words, stop: &mut Stopped, page: u64) -> u64
    requires one_table { stop.old.pass.table ≡ words.now }
    requires sweeping { IsSweeping stop.old.pass }
    requires page { page < words.now.config.pages }
    ensures sweeps { SweepsWords words.now.config.pages stop.old stop.new (words_on (still_words stop.old.pass) page) }
    ensures looks { result ≡ length (words_on (still_words stop.old.pass) page) }
    ensures few { result ≤ 131072 }
{
    let header = look_at(words, stop, Word::Head(page));
    if has_no_pointers(header) {
        return 0;
    }
    let used = look_at(words, stop, Word::Used(page));
    sweep_cells(words, stop, page, header, used)
}

/// Sweeps all pages, upward. Returns how many words it looked at.
pub(crate) fn sweep_pages(words: &Words, stop: &mut Stopped) -> u64
    requires one_table { stop.old.pass.table ≡ words.now }
    requires sweeping { IsSweeping stop.old.pass }
    ensures sweeps { SweepsWords words.now.config.pages stop.old stop.new (words_below
        (still_words stop.old.pass) words.now.config.pages) }
    ensures looks { result ≡ length (words_below (still_words stop.old.pass) words.now.config.pages) }
{
    words.is_within_limits();
    let mut looks = 0;
    for page in 0..words.pages() {
        looks += sweep_page(words, stop, page);
    }
    looks
}
