//! Engines: how the marks of a cycle are made.
ghost use Rattle.std.specs.Prelude.{◌≡◌, ℕ, false, IfOk};
ghost use Rattle.mk_words.specs.Sweeping.{SweepsNothing};
ghost use Rattle.mk_cycle.specs.{BeginCycle.IsBegun, EngineLaw.{IsFreeForCycle, IsAtPhase, ClosesMarks, Ways}};
ghost use Rattle.mk_cycle.specs.{TurnKeeps.{OnlyDoes, begins_marking}, Stops.IsToldOf};

use mk_never::NoMemory;
use mk_words::{Stopped, Turn, Words};
use std::alloc::Global;
use std::sync::Wait;
use std::thread::Threads;

/// What makes the marks of a cycle, for a heap of this many pages (`made_for`). All values of its type are alike in
/// their `ways`: in what `keeps_on` returns (`on`), in whether they make sweeping marks (`sweeps`), and in what they do
/// as a cycle begins (`begins`). `tells` is what a value promises of the world in which it closed marks last, and
/// `closes` what it did in that stop.
pub trait Engine: Drop {
    ghost ways: { Ways Self };

    ghost made_for: { Self → ℕ };

    /// An engine for this many pages. It takes all its memory here.
    fn make(alloc: Global, pages: u64) -> Result<Self, NoMemory>
        ensures { IfOk result (λ engine. made_for engine ≡ pages) };

    /// Whether a cycle that a free begins goes on after the call.
    fn keeps_on(&self) -> bool
        ensures { result ≡ ways.on };

    /// What comes directly after a cycle's `begin`.
    fn begin<R: Threads + Wait + Sync>(&mut self, rt: &R, words: &Words, turn: &mut Turn)
        requires one_table { turn.old.pass.table ≡ words.now }
        requires made_for { made_for self.old ≡ words.now.config.pages }
        requires marking { IsAtPhase turn.old.pass 1 }
        requires free { IsFreeForCycle turn.old.pass }
        ensures made_for { made_for self.new ≡ made_for self.old }
        ensures law { OnlyDoes begins_marking turn.old.pass turn.new.pass }
        ensures reached { ways.sweeps ≡ false → SweepsNothing turn.old.pass turn.new.pass }
        ensures begun { IsBegun ways.begins turn.old.pass turn.new.pass };

    /// Wants the close, and makes the marks that are left to make, so that the phase may be closed.
    fn close_marks<R: Threads + Wait + Sync>(&mut self, rt: &R, words: &Words, stop: &mut Stopped)
        requires one_table { stop.old.pass.table ≡ words.now }
        requires made_for { made_for self.old ≡ words.now.config.pages }
        requires marking { IsAtPhase stop.old.pass 1 }
        requires free { IsFreeForCycle stop.old.pass }
        ensures made_for { made_for self.new ≡ made_for self.old }
        ensures law { ClosesMarks stop.old.pass stop.new.pass }
        ensures reached { ways.sweeps ≡ false → SweepsNothing stop.old.pass stop.new.pass }
        ensures told { IsToldOf (ways.tells self.new) stop.new.pass }
        ensures closed { ways.closes self.new stop.old.pass stop.new.pass };
}
