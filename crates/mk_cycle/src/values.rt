//! What the hand points into is marked, if it isn't yet.
ghost use Rattle.std.specs.Prelude.{◌≡◌, ◌<◌, true};
ghost use Rattle.mk_core.specs.Cells.{is_marked};
ghost use Rattle.mk_cycle.specs.Grays.{GraysOne, HandPointsInto, MarksMore, MarksOn, LooksOn};
ghost use Rattle.mk_cycle.specs.Stops.{MayTrace, hand_of, still_words};

use crate::stepping::{look_at, mark_cell};
use crate::tables::Table;
use mk_core::{Word, has_cell};
use mk_geom::Cell;
use mk_words::Stopped;

/// Whether the cell is marked.
#[inline(always)]
fn is_marked(table: Table, stop: &mut Stopped, cell: Cell) -> bool
    requires may { MayTrace table.words.now stop.old.pass }
    requires page { cell.page < table.pages }
    requires index { cell.index < 64 }
    ensures looks { LooksOn stop.old stop.new }
    ensures hand { hand_of stop.new.pass ≡ hand_of stop.old.pass }
    ensures marked { result ≡ is_marked (still_words stop.old.pass) cell }
{
    let marks = look_at(table, stop, Word::Mark(cell.page));
    has_cell(marks, cell.index)
}

/// Marks the cell into which the hand points, if it isn't marked yet. Returns whether it wasn't.
#[inline(always)]
pub(crate) fn mark_white(table: Table, stop: &mut Stopped, cell: Cell) -> bool
    requires may { MayTrace table.words.now stop.old.pass }
    requires reached { HandPointsInto stop.old.pass cell }
    ensures on { MarksOn stop.old stop.new }
    ensures more { MarksMore (still_words stop.old.pass) (still_words stop.new.pass) }
    ensures marked { is_marked (still_words stop.new.pass) cell ≡ true }
    ensures one { GraysOne (still_words stop.old.pass) cell result (still_words stop.new.pass) }
{
    if is_marked(table, stop, cell) {
        return false;
    }
    mark_cell(table, stop, cell);
    true
}
