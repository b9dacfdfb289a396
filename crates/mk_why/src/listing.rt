//! The kept allocations: those of the snapshot whose cells are marked.
ghost use Rattle.std.specs.Prelude.{◌≡◌, ◌+◌, ◌*◌, ◌<◌, ◌≤◌, ℕ, None, Some, false, true, length, slice_index};
ghost use Rattle.std.specs.Prelude.{slice_set};
ghost use Rattle.mk_core.specs.{Allocations.{cell_of_allocation, placed_at}, Words.header_at};
ghost use Rattle.mk_why.specs.{Chains.is_kept, Searching.{AreOfKept, IsListed, ListsOn, entry_at}};
ghost use Rattle.mk_why.specs.Stops.{IsStill, LooksWhileStill, base_at, view_by, world_in};

use crate::found::Storage;
use crate::stepping::look_at;
use crate::tables::Tables;
use mk_core::{QuarantineWord, Word, cells_under, has_bit, words_under};
use mk_geom::{Cell, HEAP_START, PAGE_WORDS, WORD_BYTES};
use mk_sweep::lower::words::{Stopped, Words};

/// Lists the allocation of a cell of this many words, if it is in the snapshot and marked.
fn list_cell(tables: &mut Tables, cell: Cell, size: u64, in_snapshot: bool, marked: bool)
    requires page { cell.page < 4096 }
    requires index { cell.index < 32 }
    requires few { size ≤ 4096 }
    requires within { in_snapshot ≡ true → marked ≡ true
        → 64 * cell.page + cell.index * size < length tables.old.kept.items }
    ensures kept { in_snapshot ≡ true → marked ≡ true → tables.new.kept.items
        ≡ slice_set tables.old.kept.items (64 * cell.page + cell.index * size)
        (Some (record { address = 65536 + 8 * (64 * cell.page + cell.index * size); words = size })) }
    ensures outside { in_snapshot ≡ false → tables.new ≡ tables.old }
    ensures unmarked { marked ≡ false → tables.new ≡ tables.old }
    ensures found { tables.new.found ≡ tables.old.found }
{
    if !in_snapshot {
        return;
    }
    if !marked {
        return;
    }
    let base = PAGE_WORDS * cell.page + cell.index * size;
    let address = HEAP_START + WORD_BYTES * base;
    let words = size;
    tables.keep(base, Storage { address, words });
}

/// Lists the kept ones among the cells of a page, which has this header word, snapshot and marks.
fn list_cells(
    words: &Words,
    stop: &Stopped,
    tables: &mut Tables,
    page: u64,
    header: u64,
    snapshot: u64,
    marks: u64,
)
    requires one_table { stop.now.pass.table ≡ words.now }
    requires still { IsStill stop.now.pass }
    requires page { page < words.now.config.pages }
    requires header { header ≡ header_at (view_by stop.now.pass).words page }
    requires snapshot { snapshot ≡ slice_index (view_by stop.now.pass).words.snapshot page }
    requires marks { marks ≡ slice_index (view_by stop.now.pass).words.marks page }
    requires size { length tables.old.kept.items ≡ 64 * words.now.config.pages }
    requires of_kept { AreOfKept words.now.config (view_by stop.now.pass) tables.old.kept.items }
    ensures on { ListsOn words.now.config (view_by stop.now.pass) tables.old tables.new }
    ensures listed { (b : ℕ) → is_kept words.now.config (world_in (view_by stop.now.pass)) b ≡ true
        → (cell_of_allocation words.now.config (placed_at (view_by stop.now.pass).allocations b)).page ≡ page
        → IsListed tables.new.kept.items (base_at (view_by stop.now.pass) b) }
{
    words.is_within_limits();
    let size = words_under(header);
    for index in 0..cells_under(header) {
        let cell = Cell { page, index };
        list_cell(
            tables,
            cell,
            size,
            has_bit(snapshot, index),
            has_bit(marks, index),
        );
    }
}

/// Lists the kept allocations that begin on a page.
fn list_page(words: &Words, stop: &mut Stopped, tables: &mut Tables, page: u64)
    requires one_table { stop.old.pass.table ≡ words.now }
    requires still { IsStill stop.old.pass }
    requires page { page < words.now.config.pages }
    requires size { length tables.old.kept.items ≡ 64 * words.now.config.pages }
    requires of_kept { AreOfKept words.now.config (view_by stop.old.pass) tables.old.kept.items }
    ensures looks { LooksWhileStill stop.old stop.new }
    ensures on { ListsOn words.now.config (view_by stop.old.pass) tables.old tables.new }
    ensures listed { (b : ℕ) → is_kept words.now.config (world_in (view_by stop.old.pass)) b ≡ true
        → (cell_of_allocation words.now.config (placed_at (view_by stop.old.pass).allocations b)).page ≡ page
        → IsListed tables.new.kept.items (base_at (view_by stop.old.pass) b) }
{
    let header = look_at(words, stop, Word::Head(page));
    let quarantine = look_at(words, stop, Word::Quar(page));
    let marks = look_at(words, stop, Word::Mark(page));
    list_cells(
        words,
        stop,
        tables,
        page,
        header,
        QuarantineWord::of(quarantine).snapshot,
        marks,
    );
}

/// Lists all kept allocations.
pub(crate) fn list_kept(words: &Words, stop: &mut Stopped, tables: &mut Tables)
    requires one_table { stop.old.pass.table ≡ words.now }
    requires still { IsStill stop.old.pass }
    requires size { length tables.old.kept.items ≡ 64 * words.now.config.pages }
    requires none { (base : ℕ) → entry_at tables.old.kept.items base ≡ None }
    ensures looks { LooksWhileStill stop.old stop.new }
    ensures on { ListsOn words.now.config (view_by stop.old.pass) tables.old tables.new }
    ensures each { (b : ℕ) → is_kept words.now.config (world_in (view_by stop.old.pass)) b ≡ true
        → IsListed tables.new.kept.items (base_at (view_by stop.old.pass) b) }
{
    for page in 0..words.pages() {
        list_page(words, stop, tables, page);
    }
}
