//! After the sweep each marked cell is blackened: its words were looked at, or are 0, or aren't scanned.
ghost use Rattle.std.specs.Prelude.{◌≡◌, ℕ, ◌<◌, ◌≤◌, [], true, slice_index};
ghost use Rattle.mk_core.specs.{Cells.{cells_under, header_in}, MarkingConditions.may_turn_black};
ghost use Rattle.mk_cycle.specs.{Below.Laws.Theorems.CellsAreClosed, Grays.is_black, Stops.still_words};
ghost use Rattle.mk_sweep.specs.Sweeps.{BlacksMore, IsSweeping, PageIsBlack, SweepsOn};

use crate::stepping::look_at;
use mk_core::{Word, bit, cells_under, has_bit};
use mk_cycle::lower::words::{Stopped, Words};
use mk_geom::Cell;

/// Blackens a cell, if it is marked.
fn blacken_if_marked(words: &Words, stop: &mut Stopped, marked: bool, cell: Cell)
    requires one_table { stop.old.pass.table ≡ words.now }
    requires sweeping { IsSweeping stop.old.pass }
    requires page { cell.page < words.now.config.pages }
    requires index { cell.index < 32 }
    requires turns { marked ≡ true → may_turn_black words.now.config.pages (still_words stop.old.pass) cell ≡ true }
    ensures on { SweepsOn stop.old stop.new [] }
    ensures more { BlacksMore (still_words stop.old.pass) (still_words stop.new.pass) }
    ensures black { marked ≡ true → is_black (still_words stop.new.pass) cell ≡ true }
{
    if !marked {
        return;
    }
    stop.black(words, cell.page, bit(cell.index));
}

/// Blackens the marked ones among a page's cells, of which there are this many. These are the page's marks.
fn blacken_cells(words: &Words, stop: &mut Stopped, page: u64, count: u64, marks: u64)
    requires one_table { stop.old.pass.table ≡ words.now }
    requires sweeping { IsSweeping stop.old.pass }
    requires page { page < words.now.config.pages }
    requires count { count ≡ cells_under (header_in (still_words stop.old.pass) page) }
    requires few { count ≤ 32 }
    requires marks { marks ≡ slice_index (still_words stop.old.pass).marks page }
    requires closed { CellsAreClosed words.now.config (still_words stop.old.pass) }
    ensures on { SweepsOn stop.old stop.new [] }
    ensures more { BlacksMore (still_words stop.old.pass) (still_words stop.new.pass) }
    ensures black { PageIsBlack (still_words stop.new.pass) page }
{
    for index in 0..count {
        blacken_if_marked(words, stop, has_bit(marks, index), Cell { page, index });
    }
}

/// Blackens the marked cells of a page.
fn blacken_page(words: &Words, stop: &mut Stopped, page: u64)
    requires one_table { stop.old.pass.table ≡ words.now }
    requires sweeping { IsSweeping stop.old.pass }
    requires page { page < words.now.config.pages }
    requires closed { CellsAreClosed words.now.config (still_words stop.old.pass) }
    ensures on { SweepsOn stop.old stop.new [] }
    ensures more { BlacksMore (still_words stop.old.pass) (still_words stop.new.pass) }
    ensures black { PageIsBlack (still_words stop.new.pass) page }
{
    let header = look_at(words, stop, Word::Head(page));
    let marks = look_at(words, stop, Word::Mark(page));
    blacken_cells(words, stop, page, cells_under(header), marks);
}

/// Blackens all marked cells.
pub(crate) fn blacken_all(words: &Words, stop: &mut Stopped)
    requires one_table { stop.old.pass.table ≡ words.now }
    requires sweeping { IsSweeping stop.old.pass }
    requires closed { CellsAreClosed words.now.config (still_words stop.old.pass) }
    ensures on { SweepsOn stop.old stop.new [] }
    ensures more { BlacksMore (still_words stop.old.pass) (still_words stop.new.pass) }
    ensures black { (p : ℕ) → p < words.now.config.pages → PageIsBlack (still_words stop.new.pass) p }
{
    for page in 0..words.pages() {
        blacken_page(words, stop, page);
    }
}
