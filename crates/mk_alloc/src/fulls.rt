//! A New for whose object there is no room.
ghost use Rattle.std.specs.Prelude.{◌≡◌, None};
ghost use Rattle.mk_core.specs.{declared.seats.OwnCycle.TheVariants.Ended, Cycles.{is_begin, is_close}};
ghost use Rattle.mk_caller.specs.Below.Words.{States.now_of, Sweeping.SweepsNothing};
ghost use Rattle.mk_alloc.specs.Placing.{IsUnplaced, place_now_for};
ghost use Rattle.mk_cycle.specs.EngineLaw.{IsAtPhase};
ghost use Rattle.mk_alloc.specs.Rooms.{AnswersFull, SeesNone, IsQuiet};

use mk_caller::lower::words::{Turn, Words};
use mk_core::{Tally, Word};

/// Decides the New, and counts it.
pub(crate) fn answer_full(words: &Words, turn: &mut Turn)
    requires one_table { turn.old.pass.table ≡ words.now }
    requires quiet { IsQuiet turn.old.pass }
    requires unplaced { IsUnplaced turn.old.pass }
    requires nowhere { place_now_for turn.old.pass ≡ None }
    requires idle { IsAtPhase turn.old.pass 0 }
    requires ended { (now_of turn.old.pass).seats.holding.cycle ≡ Ended }
    ensures full { AnswersFull turn.old.pass turn.new.pass }
    ensures begins { SeesNone is_begin turn.old.pass turn.new.pass }
    ensures closes { SeesNone is_close turn.old.pass turn.new.pass }
    ensures reached { SweepsNothing turn.old.pass turn.new.pass }
{
    let count = turn.look(words, Word::Full);
    turn.tally(words, Tally::Full, count.saturating_add(1));
    turn.full(words);
}
