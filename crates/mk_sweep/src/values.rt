//! What values point into, and the marks by them.
ghost use Rattle.std.specs.Prelude.{◌≡◌, ◌<◌, [], true};
ghost use Rattle.mk_core.specs.Cells.{is_marked, points_well};
ghost use Rattle.mk_cycle.specs.{Grays.MarksMore, Stops.{hand_of, still_words}};
ghost use Rattle.mk_sweep.specs.Sweeps.{HasInHand, IsSweeping, SweepsOn};

use crate::stepping::{look_at, mark_cell};
use mk_core::{Word, has_bit};
use mk_cycle::lower::words::{Stopped, Words, cell_pointed};
use mk_geom::Cell;

/// Whether the cell is marked.
fn is_marked(words: &Words, stop: &mut Stopped, cell: Cell) -> bool
    requires one_table { stop.old.pass.table ≡ words.now }
    requires sweeping { IsSweeping stop.old.pass }
    requires page { cell.page < words.now.config.pages }
    ensures on { SweepsOn stop.old stop.new [] }
    ensures words { still_words stop.new.pass ≡ still_words stop.old.pass }
    ensures hand { hand_of stop.new.pass ≡ hand_of stop.old.pass }
    ensures marked { result ≡ is_marked (still_words stop.old.pass) cell }
{
    let marks = look_at(words, stop, Word::Mark(cell.page));
    has_bit(marks, cell.index)
}

/// Marks what the hand points into, if that isn't marked yet.
pub(crate) fn mark_value(words: &Words, stop: &mut Stopped, value: u64)
    requires one_table { stop.old.pass.table ≡ words.now }
    requires sweeping { IsSweeping stop.old.pass }
    requires hand { HasInHand stop.old.pass value }
    ensures on { SweepsOn stop.old stop.new [] }
    ensures more { MarksMore (still_words stop.old.pass) (still_words stop.new.pass) }
    ensures well { points_well words.now.config.pages (still_words stop.new.pass) value ≡ true }
{
    let Some(cell) = cell_pointed(words, stop, value) else {
        return;
    };
    if is_marked(words, stop, cell) {
        return;
    }
    mark_cell(words, stop, cell);
}
