//! What values of roots point into, and the marks by them.
ghost use Rattle.std.specs.Prelude.{◌≡◌, ◌<◌, true};
ghost use Rattle.mk_core.specs.Cells.{is_marked, points_well};
ghost use Rattle.mk_words.specs.States.{now_of};
ghost use Rattle.mk_cycle.specs.TurnKeeps.{KeepsGates};
ghost use Rattle.mk_cycle.specs.{Grays.IsInHand, Stops.hand_of, Beside.{GoesBeside, IsBeside}};

use crate::steps_beside::{look_at, mark_cell};
use mk_core::{Word, has_bit};
use mk_geom::Cell;
use mk_words::{Turn, Words, cell_pointed};

/// Whether the cell is marked.
fn is_marked(words: &Words, turn: &mut Turn, cell: Cell) -> bool
    requires one_table { turn.old.pass.table ≡ words.now }
    requires beside { IsBeside turn.old.pass }
    requires page { cell.page < words.now.config.pages }
    ensures on { GoesBeside turn.old turn.new }
    ensures gates { KeepsGates turn.old.pass turn.new.pass }
    ensures hand { hand_of turn.new.pass ≡ hand_of turn.old.pass }
    ensures marked { result ≡ is_marked (now_of turn.new.pass).words cell }
{
    let marks = look_at(words, turn, Word::Mark(cell.page));
    has_bit(marks, cell.index)
}

/// Marks what the hand points into, if that isn't marked yet.
pub(crate) fn mark_value(words: &Words, turn: &mut Turn, value: u64)
    requires one_table { turn.old.pass.table ≡ words.now }
    requires beside { IsBeside turn.old.pass }
    requires hand { IsInHand turn.old.pass value }
    ensures on { GoesBeside turn.old turn.new }
    ensures gates { KeepsGates turn.old.pass turn.new.pass }
    ensures well { points_well words.now.config.pages (now_of turn.new.pass).words value ≡ true }
{
    let Some(cell) = cell_pointed(words, turn, value) else {
        return;
    };
    if is_marked(words, turn, cell) {
        return;
    }
    mark_cell(words, turn, cell);
}
