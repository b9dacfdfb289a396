//! The stop of an engine that traces.
ghost use Rattle.std.specs.Prelude.{◌≡◌};
ghost use Rattle.mk_cycle.specs.EngineLaw.{IsFreeForCycle, IsAtPhase, ClosesMarks};
ghost use Rattle.mk_words.specs.Sweeping.{SweepsNothing};
ghost use Rattle.mk_cycle.specs.{Grays.TracesReached, Tracing.{Traces, is_tracing}};

use crate::closing::close_marks;
use crate::worklist::Worklist;
use mk_words::{Stopped, Words};
use std::sync::Wait;

/// The most pages that a heap has.
pub(crate) const MOST_PAGES: u64 = 4096;

/// Wants the close, and traces until the marks may be closed. Only words of gray cells are looked at, and only what
/// was reached is marked.
pub(crate) fn close_by_tracing<R: Wait>(
    rt: &R,
    words: &Words,
    stop: &mut Stopped,
    work: &mut Worklist,
)
    requires one_table { stop.old.pass.table ≡ words.now }
    requires phase { IsAtPhase stop.old.pass 1 }
    requires free { IsFreeForCycle stop.old.pass }
    ensures law { ClosesMarks stop.old.pass stop.new.pass }
    ensures reached { SweepsNothing stop.old.pass stop.new.pass }
    ensures traces { Traces is_tracing TracesReached stop.old.pass stop.new.pass }
{
    close_marks(rt, words, stop, work);
}
