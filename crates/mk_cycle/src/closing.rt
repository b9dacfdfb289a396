//! What an engine does in the stop: it wants the close, and marks until the marks may be closed.
ghost use Rattle.std.specs.Prelude.{◌≡◌, ℕ, ◌<◌, slice_index};
ghost use Rattle.mk_core.specs.{Cycles.MarksAreClosed, Words.phase_of};
ghost use Rattle.mk_words.specs.{States.{now_of, world_of}, Steps.IsEnabledTo};
ghost use Rattle.mk_cycle.specs.{EngineLaw.WantsFirst, Grays.{HasNoGray, MarksOn, RootsPointWell, TracesReached}};
ghost use Rattle.mk_cycle.specs.Stops.{HolderIsLoaded, IsWanted, MayTrace, still_words};
ghost use Rattle.mk_cycle.specs.{Tracing.{Counted, is_tracing}, TurnKeeps.is_want};
ghost use Rattle.mk_core.specs.declared.events.Step.TheVariants as step;

use crate::dirty::clean_dirty;
use crate::roots::mark_roots;
use crate::tables::Table;
use crate::tracing::trace;
use crate::waiting::want_and_wait;
use crate::worklist::Worklist;
use mk_words::{Stopped, Words};
use std::sync::Wait;

/// Looks again at what is dirty and at all roots, and traces from there, until every marked cell is black.
fn mark_in_stop(table: Table, stop: &mut Stopped, work: &mut Worklist)
    requires may { MayTrace table.words.now stop.old.pass }
    ensures on { MarksOn stop.old stop.new }
    ensures black { (p : ℕ) → p < table.entry.pages → HasNoGray (still_words stop.new.pass) p }
    ensures clean { (p : ℕ) → p < table.entry.pages → slice_index (still_words stop.new.pass).dirty p ≡ 0 }
    ensures roots { RootsPointWell table.entry.pages (still_words stop.new.pass) }
{
    let is_unmarked = clean_dirty(table, stop);
    work.forget(is_unmarked);
    mark_roots(table, stop, work);
    trace(table, stop, work);
}

/// Wants the close, waits for the markers, and marks in the stop until the marks may be closed. Every engine may call
/// it: if nothing is marked before the stop, no page has a black cell.
pub fn close_marks<R: Wait>(rt: &R, words: &Words, stop: &mut Stopped, work: &mut Worklist)
    requires one_table { stop.old.pass.table ≡ words.now }
    requires ready { HolderIsLoaded stop.old.pass }
    requires phase { phase_of (now_of stop.old.pass).words ≡ 1 }
    ensures table { stop.new.pass.table ≡ stop.old.pass.table }
    ensures wanted { IsWanted stop.new.pass }
    ensures wants { WantsFirst stop.old.pass stop.new.pass }
    ensures traces { Counted is_tracing TracesReached is_want stop.old.pass stop.new.pass 1 }
    ensures closes { IsEnabledTo stop.new.pass step.Close }
    ensures closed { MarksAreClosed stop.new.pass.table.config (world_of stop.new.pass) }
{
    want_and_wait(rt, words, stop);
    mark_in_stop(Table::of(words), stop, work);
}
