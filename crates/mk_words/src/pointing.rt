//! The cell into which a value points, by the header of the value's page.
ghost use Rattle.std.specs.Prelude.{◌≡◌};
ghost use Rattle.mk_core.specs.Cells.{pointed_cell};
ghost use Rattle.mk_words.specs.States.{now_of};
ghost use Rattle.mk_words.specs.TurnSteps.{LooksForCell, MayLookAtHeaders};

use crate::gates::Gates;
use crate::turns::TurnAt;
use crate::words::Words;
use mk_core::Word;
use mk_geom::{Cell, heap_page, lookup};

/// The cell into which a value points. It looks at the header of the value's page, and at nothing where the value is no
/// address of the heap.
#[tactic(auto, using(crate::proofs::PointedCells::outside_none))]
pub fn cell_pointed<G: Gates>(words: &Words, turn: &mut TurnAt<G>, value: u64) -> Option<Cell>
    requires one_table { turn.old.pass.table ≡ words.now }
    requires may { MayLookAtHeaders turn.old.pass }
    ensures looks { LooksForCell value turn.old turn.new }
    ensures hand { (now_of turn.new.pass).seats.holding.hand ≡ (now_of turn.old.pass).seats.holding.hand }
    ensures points { result ≡ pointed_cell words.now.config.pages (now_of turn.new.pass).words.pages value }
{
    let page = heap_page(words.pages(), value)?;
    let header = turn.look(words, Word::Head(page));
    lookup(words.pages(), header, value)
}
