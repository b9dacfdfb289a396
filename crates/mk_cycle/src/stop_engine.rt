//! The engine that makes all marks in the stop.
ghost use Rattle.std.specs.Prelude.{◌≡◌, false, ⊤};
ghost use Rattle.mk_cycle.specs.{BeginCycle.{DoesNothing, IsBegun}, EngineLaw.{IsFreeForCycle, IsAtPhase, ClosesMarks}};
ghost use Rattle.mk_cycle.specs.{TurnKeeps.{OnlyDoes, begins_marking}, Grays.TracesReached};
ghost use Rattle.mk_cycle.specs.Tracing.{Traces, is_tracing};
ghost use Rattle.mk_words.specs.Sweeping.{SweepsNothing};

use crate::engine::Engine;
use crate::stopping::{MOST_PAGES, close_by_tracing};
use crate::worklist::Worklist;
use mk_never::NoMemory;
use mk_words::{Stopped, Turn, Words};
use std::alloc::Global;
use std::sync::Wait;
use std::thread::Threads;

/// Marks nothing before the stop. In the stop it traces from the roots.
#[derive(Drop)]
pub struct StopEngine {
    pages: u64,
    work: Worklist,
}

impl Engine for StopEngine {
    ghost ways = { record {
      on = false;
      sweeps = false;
      begins = DoesNothing;
      tells = λ engine c w. ⊤;
      closes = λ engine p q. Traces is_tracing TracesReached p q;
    } };

    ghost made_for = { λ engine. engine.pages };

    fn make(alloc: Global, pages: u64) -> Result<StopEngine, NoMemory> {
        let work = Worklist::new(alloc, pages.min(MOST_PAGES))?;
        Ok(StopEngine { pages, work })
    }

    fn keeps_on(&self) -> bool {
        false
    }

    fn begin<R: Threads + Wait + Sync>(&mut self, _rt: &R, _words: &Words, _turn: &mut Turn)
        ensures made_for { self.new.pages ≡ self.old.pages }
        ensures law { OnlyDoes begins_marking _turn.old.pass _turn.new.pass }
        ensures reached { SweepsNothing _turn.old.pass _turn.new.pass }
        ensures begun { IsBegun DoesNothing _turn.old.pass _turn.new.pass }
        ensures nothing { _turn.new ≡ _turn.old }
    {}

    fn close_marks<R: Threads + Wait + Sync>(&mut self, rt: &R, words: &Words, stop: &mut Stopped)
        requires one_table { stop.old.pass.table ≡ words.now }
        requires marking { IsAtPhase stop.old.pass 1 }
        requires free { IsFreeForCycle stop.old.pass }
        ensures made_for { self.new.pages ≡ self.old.pages }
        ensures law { ClosesMarks stop.old.pass stop.new.pass }
        ensures reached { SweepsNothing stop.old.pass stop.new.pass }
        ensures traces { Traces is_tracing TracesReached stop.old.pass stop.new.pass }
    {
        close_by_tracing(rt, words, stop, &mut self.work);
    }
}
