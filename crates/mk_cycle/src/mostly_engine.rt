//! The engine that marks beside the callers, and then in the stop what is left.
ghost use Rattle.std.specs.Prelude.{◌≡◌, true, false, ⊤};
ghost use Rattle.mk_cycle.specs.{BeginCycle.IsBegun, EngineLaw.{IsFreeForCycle, IsAtPhase, ClosesMarks}};
ghost use Rattle.mk_cycle.specs.{TurnKeeps.{OnlyDoes, begins_marking}, Grays.TracesReached};
ghost use Rattle.mk_cycle.specs.{Tracing.{Traces, is_tracing}, Beside.MarksRoots};
ghost use Rattle.mk_words.specs.Sweeping.{SweepsNothing};

use crate::engine::Engine;
use crate::roots_beside::mark_roots;
use crate::stopping::{MOST_PAGES, close_by_tracing};
use crate::worklist::Worklist;
use mk_never::NoMemory;
use mk_words::{Stopped, Turn, Words};
use std::alloc::Global;
use std::sync::Wait;
use std::thread::Threads;

/// Marks from the roots as a cycle begins, and leaves it on: markers trace beside the callers. In the stop it looks
/// again at what is dirty, and at the roots, and traces what is left.
#[derive(Drop)]
pub struct MostlyEngine {
    pages: u64,
    work: Worklist,
}

impl Engine for MostlyEngine {
    ghost ways = { record {
      on = true;
      sweeps = false;
      begins = λ c s es more. MarksRoots c s es more;
      tells = λ engine c w. ⊤;
      closes = λ engine p q. Traces is_tracing TracesReached p q;
    } };

    ghost made_for = { λ engine. engine.pages };

    fn make(alloc: Global, pages: u64) -> Result<MostlyEngine, NoMemory> {
        let work = Worklist::new(alloc, pages.min(MOST_PAGES))?;
        Ok(MostlyEngine { pages, work })
    }

    fn keeps_on(&self) -> bool {
        true
    }

    fn begin<R: Threads + Wait + Sync>(&mut self, rt: &R, words: &Words, turn: &mut Turn)
        requires one_table { turn.old.pass.table ≡ words.now }
        requires marking { IsAtPhase turn.old.pass 1 }
        requires free { IsFreeForCycle turn.old.pass }
        ensures made_for { self.new.pages ≡ self.old.pages }
        ensures law { OnlyDoes begins_marking turn.old.pass turn.new.pass }
        ensures reached { SweepsNothing turn.old.pass turn.new.pass }
        ensures begun { IsBegun MarksRoots turn.old.pass turn.new.pass }
    {
        mark_roots(rt, words, turn);
    }

    fn close_marks<R: Threads + Wait + Sync>(&mut self, rt: &R, words: &Words, stop: &mut Stopped)
        requires one_table { stop.old.pass.table ≡ words.now }
        requires marking { IsAtPhase stop.old.pass 1 }
        requires free { IsFreeForCycle stop.old.pass }
        ensures made_for { self.new.pages ≡ self.old.pages }
        ensures law { ClosesMarks stop.old.pass stop.new.pass }
        ensures reached { SweepsNothing stop.old.pass stop.new.pass }
        ensures traces { Traces is_tracing TracesReached stop.old.pass stop.new.pass }
    {
        close_by_tracing(rt, words, stop, &mut self.work);
    }
}
