//! The engine that sweeps.
ghost use Rattle.std.specs.Prelude.{◌≡◌, true, false, IfOk};
ghost use Rattle.mk_cycle.specs.{BeginCycle.{DoesNothing, IsBegun}, EngineLaw.{IsFreeForCycle, IsAtPhase, ClosesMarks}};
ghost use Rattle.mk_cycle.specs.{TurnKeeps.{OnlyDoes, begins_marking}, Stops.IsToldOf};
ghost use Rattle.mk_sweep.specs.Sweeps.{Sweeps, SweptAreMarked};

use crate::closing::close_by_sweeping;
use mk_cycle::Engine;
use mk_cycle::lower::words::{Stopped, Turn, Words};
use mk_never::NoMemory;
use std::alloc::Global;
use std::sync::Wait;
use std::thread::Threads;

/// Marks nothing before the stop. In the stop it marks whatever a register points into, or a global, or a word of a
/// mapped allocation that isn't leaf, whether that allocation is reached or not. It follows nothing, so it needs no
/// memory; and freed small objects that point to each other keep each other.
#[derive(Drop)]
pub struct SweepEngine {
    pages: u64,
    looks: u64,
}

impl SweepEngine {
    /// How many heap words the last `close_marks` looked at. It is 0 before the first.
    pub fn looks(&self) -> u64
        ensures { result ≡ self.now.looks }
    {
        self.looks
    }
}

impl Engine for SweepEngine {
    ghost ways = { record {
      on = false;
      sweeps = true;
      begins = DoesNothing;
      tells = λ engine c w. SweptAreMarked c w;
      closes = λ engine p q. Sweeps p q engine.looks;
    } };

    ghost made_for = { λ engine. engine.pages };

    fn make(_alloc: Global, pages: u64) -> Result<SweepEngine, NoMemory>
        ensures made_for { IfOk result (λ engine. engine.pages ≡ pages) }
        ensures none { IfOk result (λ engine. engine.looks ≡ 0) }
    {
        Ok(SweepEngine { pages, looks: 0 })
    }

    fn keeps_on(&self) -> bool {
        false
    }

    fn begin<R: Threads + Wait + Sync>(&mut self, _rt: &R, _words: &Words, _turn: &mut Turn)
        ensures made_for { self.new.pages ≡ self.old.pages }
        ensures law { OnlyDoes begins_marking _turn.old.pass _turn.new.pass }
        ensures begun { IsBegun DoesNothing _turn.old.pass _turn.new.pass }
        ensures nothing { _turn.new ≡ _turn.old }
        ensures looks { self.new.looks ≡ self.old.looks }
    {}

    fn close_marks<R: Threads + Wait + Sync>(&mut self, rt: &R, words: &Words, stop: &mut Stopped)
        requires one_table { stop.old.pass.table ≡ words.now }
        requires marking { IsAtPhase stop.old.pass 1 }
        requires free { IsFreeForCycle stop.old.pass }
        ensures made_for { self.new.pages ≡ self.old.pages }
        ensures law { ClosesMarks stop.old.pass stop.new.pass }
        ensures told { IsToldOf SweptAreMarked stop.new.pass }
        ensures sweeps { Sweeps stop.old.pass stop.new.pass self.new.looks }
    {
        self.looks = close_by_sweeping(rt, words, stop);
    }
}
