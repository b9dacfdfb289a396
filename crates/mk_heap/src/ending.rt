//! The host's cycles, and the end of a heap.
ghost use Rattle.std.specs.Prelude.{◌≡◌, None, false};
ghost use Rattle.mk_alloc.specs.{Below.Words.States.{Has, HasCallers, has_over}, Below.Words.Steps.IsEnabledTo};
ghost use Rattle.mk_alloc.specs.{Below.Cycles.BeginCycle.EachIsBegun, Below.Cycles.EngineLaw.IsAtPhase};
ghost use Rattle.mk_alloc.specs.{Below.Words.Sweeping.SweepsNothing, TurnCycles.{EachIsFinished, EachIsSaid}};
ghost use Rattle.mk_heap.specs.Ending.{CallersAreJoined, IsIdleTurn, MakesToldCycle, SaysOver, TakesIdleTurn};
ghost use Rattle.mk_heap.specs.Hosts.{with_seen};
ghost use Rattle.mk_core.specs.declared.events.Seat.TheVariants as seat;
ghost use Rattle.mk_core.specs.declared.events.Step.TheVariants as step;

use crate::heaps::Heap;
use crate::hosts::{Host, take_home};
use mk_alloc::lower::cycles::{Engine, begin_cycle, finish_cycle};
use mk_alloc::lower::words::{Pass, Turn, Words, take_turn};
use mk_core::{Phase, Word};
use std::sync::Wait;
use std::thread::Threads;

impl Host {
    /// Finishes a cycle that is on, and announces to the markers that all is over. No caller is created after it. The
    /// engine stays as it was where no cycle is on.
    pub fn over<E: Engine, R: Threads + Wait + Sync>(&mut self, rt: &R, heap: &Heap, engine: &mut E)
        requires one_table { self.old.pass.table ≡ heap.now }
        requires made_for { E.made_for engine.old ≡ heap.now.config.pages }
        requires joined { CallersAreJoined self.old }
        requires before_over { has_over self.old.pass.seen ≡ false }
        ensures made_for { E.made_for engine.new ≡ E.made_for engine.old }
        ensures engine { IsAtPhase self.old.pass 0 → engine.new ≡ engine.old }
        ensures host { self.new ≡ with_seen self.old self.new.pass.seen }
        ensures over { SaysOver self.old.pass self.new.pass }
        ensures reached { E.ways.sweeps ≡ false → SweepsNothing self.old.pass self.new.pass }
        ensures said { EachIsSaid E.ways.tells self.old.pass self.new.pass }
    {
        let words = &heap.words;
        let home = take_home(&mut self.pass);
        let mut turn = take_idle_turn(rt, words, home, engine);
        turn.over(words);
        let back = turn.give(words);
        self.pass = Some(back);
    }

    /// Runs one whole cycle, after one that is on is finished. No cycle is on after it. Directly after its `begin` the
    /// engine does its part.
    pub fn cycle<E: Engine, R: Threads + Wait + Sync>(
        &mut self,
        rt: &R,
        heap: &Heap,
        engine: &mut E,
    )
        requires one_table { self.old.pass.table ≡ heap.now }
        requires made_for { E.made_for engine.old ≡ heap.now.config.pages }
        requires before_over { has_over self.old.pass.seen ≡ false }
        ensures made_for { E.made_for engine.new ≡ E.made_for engine.old }
        ensures host { self.new ≡ with_seen self.old self.new.pass.seen }
        ensures own { Has self.new.pass.seats seat.Host }
        ensures idle { IsAtPhase self.new.pass 0 }
        ensures cycle { MakesToldCycle (E.ways.tells engine.new) self.old.pass self.new.pass }
        ensures overs { has_over self.new.pass.seen ≡ has_over self.old.pass.seen }
        ensures reached { E.ways.sweeps ≡ false → SweepsNothing self.old.pass self.new.pass }
        ensures begun { EachIsBegun false E.ways.begins self.old.pass self.new.pass }
        ensures said { EachIsSaid E.ways.tells self.old.pass self.new.pass }
        ensures finished { EachIsFinished E.ways.closes self.old.pass self.new.pass }
    {
        let words = &heap.words;
        let home = take_home(&mut self.pass);
        let mut turn = take_idle_turn(rt, words, home, engine);
        begin_cycle(rt, words, &mut turn, engine);
        let (turn, _) = finish_cycle(rt, words, turn, engine);
        let back = turn.give(words);
        self.pass = Some(back);
    }
}

/// Takes the host's turn, and finishes a cycle that is on.
fn take_idle_turn<E: Engine, R: Threads + Wait + Sync>(
    rt: &R,
    words: &Words,
    home: Pass,
    engine: &mut E,
) -> Turn
    requires one_table { home.table ≡ words.now }
    requires made_for { E.made_for engine.old ≡ words.now.config.pages }
    requires seat { home.seat ≡ seat.Host }
    requires enabled { IsEnabledTo home (step.Take None) }
    requires before_over { has_over home.seen ≡ false }
    ensures made_for { E.made_for engine.new ≡ E.made_for engine.old }
    ensures engine { HasCallers home.table.config home.seats → IsAtPhase home 0 → engine.new ≡ engine.old }
    ensures takes { TakesIdleTurn home result.pass }
    ensures idle { IsIdleTurn result.pass }
    ensures reached { E.ways.sweeps ≡ false → SweepsNothing home result.pass }
    ensures said { EachIsSaid E.ways.tells home result.pass }
{
    let mut turn = take_turn(rt, words, home, None);
    let found = turn.look(words, Word::Phase);
    if Phase::Marking.is_in(found) {
        finish_cycle(rt, words, turn, engine).0
    } else {
        turn
    }
}
