//! The host: it creates callers and markers, and joins them.
ghost use Rattle.std.specs.Prelude.{◌≡◌, ◌<◌, [], ◌∷◌, Some, IsSome, true, false};
ghost use Rattle.mk_core.specs.{Counts.IsTidy, History.IsHistory, Conditions.is_word};
ghost use Rattle.mk_alloc.specs.Below.{Words.States.{Has, has_over}, Callers.States.{IsAtHome, IsIdleCaller}};
ghost use Rattle.mk_alloc.specs.Below.Words.Sweeping.{SweepsNothing};
ghost use Rattle.mk_marker.specs.Markers.{IsMarkers, IsOut};
ghost use Rattle.mk_heap.specs.Hosts.{TakesBack, pass_for, with_caller_made, with_caller_out, with_marker_made};
ghost use Rattle.mk_heap.specs.{Hosts.{with_seen, IsDone}, Ending.TellsWord};
ghost use Rattle.mk_core.specs.declared.events.Seat.TheVariants as seat;
ghost use Rattle.mk_alloc.specs.Below.Cycles.EngineLaw.{is_register};

use crate::heaps::Heap;
use mk_alloc::lower::callers::Caller;
use mk_alloc::lower::words::{Pass, Words, take_turn};
use mk_core::{Seat, Word};
use mk_marker::Marker;
use std::marker::Model;
use std::sync::Wait;

/// Creates the callers and markers of a heap, and joins them.
#[derive(Drop)]
pub struct Host {
    pub(crate) pass: Option<Pass>,
    pub(crate) callers: u64,
    pub(crate) markers: u64,
}

impl Model for Host {
    ghost use Rattle.mk_heap.specs.Hosts.{HostState, host_of, IsWholeHost};

    ghost Value = { HostState };

    ghost view = { λ h. host_of h.pass h.callers h.markers };

    ghost invariant = { λ h. IsWholeHost h.pass h.callers h.markers };
}

/// The pass of a host, for a call of it that puts the pass back. It is home between the calls.
pub(crate) fn take_home(pass: &mut Option<Pass>) -> Pass
    requires { IsSome pass.old }
    ensures { pass.old ≡ Some result }
{
    pass.take().unwrap()
}

impl Host {
    /// What holds of every host. It does nothing.
    pub fn is_in_order(&self)
        ensures seat { self.now.pass.seat ≡ seat.Host }
        ensures history { IsHistory self.now.pass.table.config self.now.pass.seen }
        ensures tidy { IsTidy self.now.pass.table.config self.now.pass.seen }
    {
        match &self.pass {
            Some(home) => home.is_in_order(),
            None => unreachable!(),
        }
    }

    /// The next caller. None is created after an `over`.
    pub fn caller<'h>(&mut self, heap: &'h Heap) -> Caller<'h>
        requires one_table { self.old.pass.table ≡ heap.now }
        requires more { self.old.callers < heap.now.config.callers }
        requires before_over { has_over self.old.pass.seen ≡ false }
        ensures host { self.new ≡ with_caller_made self.old }
        ensures caller { IsAtHome result (pass_for self.old (seat.Caller self.old.callers)) }
    {
        let words = &heap.words;
        words.is_within_limits();
        let mut home = take_home(&mut self.pass);
        let pass = Words::split(words, &mut home, Seat::Caller(self.callers));
        self.pass = Some(home);
        self.callers += 1;
        Caller::new(words, pass)
    }

    /// A caller that was joined, for more calls. It has seen all that the host has.
    pub fn caller_again<'h>(&mut self, heap: &'h Heap, caller: u64) -> Caller<'h>
        requires one_table { self.old.pass.table ≡ heap.now }
        requires made { caller < self.old.callers }
        requires joined { Has self.old.pass.seats (seat.Caller caller) }
        requires before_over { has_over self.old.pass.seen ≡ false }
        ensures host { self.new ≡ with_caller_out self.old caller }
        ensures caller { IsAtHome result (pass_for self.old (seat.Caller caller)) }
    {
        let words = &heap.words;
        let mut home = take_home(&mut self.pass);
        let pass = Words::split(words, &mut home, Seat::Caller(caller));
        self.pass = Some(home);
        Caller::new(words, pass)
    }

    /// Takes the pass of a caller back, as its `finish` returned it.
    pub fn join_caller(&mut self, heap: &Heap, pass: Pass)
        requires one_table { self.old.pass.table ≡ heap.now }
        requires of_table { pass.table ≡ heap.now }
        requires alone { pass.seats ≡ pass.seat ∷ [] }
        requires idle { IsIdleCaller pass }
        ensures { TakesBack self.old pass self.new }
    {
        self.join(heap, pass);
    }

    /// The next marker.
    pub fn marker<'h>(&mut self, heap: &'h Heap) -> Marker<'h>
        requires one_table { self.old.pass.table ≡ heap.now }
        requires more { self.old.markers < heap.now.config.markers }
        ensures host { self.new ≡ with_marker_made self.old }
        ensures marker { result ≡ pass_for self.old (seat.Marker self.old.markers) }
    {
        let words = &heap.words;
        words.is_within_limits();
        let mut home = take_home(&mut self.pass);
        let pass = Words::split(words, &mut home, Seat::Marker(self.markers));
        self.pass = Some(home);
        self.markers += 1;
        Marker::new(words, pass)
    }

    /// Takes the pass of a marker back, as its `finish` returned it.
    pub fn join_marker(&mut self, heap: &Heap, pass: Pass)
        requires one_table { self.old.pass.table ≡ heap.now }
        requires of_table { pass.table ≡ heap.now }
        requires alone { pass.seats ≡ pass.seat ∷ [] }
        requires marker { IsMarkers pass }
        requires out { IsOut pass }
        ensures { TakesBack self.old pass self.new }
    {
        pass.is_in_order();
        self.join(heap, pass);
    }

    /// Takes a pass back whose seat rests.
    fn join(&mut self, heap: &Heap, pass: Pass)
        requires one_table { self.old.pass.table ≡ heap.now }
        requires of_table { pass.table ≡ heap.now }
        requires done { IsDone pass }
        ensures { TakesBack self.old pass self.new }
    {
        let mut home = take_home(&mut self.pass);
        home.is_in_order();
        Words::join(&heap.words, &mut home, pass);
        self.pass = Some(home);
    }

    /// Takes the turn, looks at one word, gives the turn back, and returns the word.
    pub fn tell<R: Wait>(&mut self, rt: &R, heap: &Heap, x: Word) -> u64
        requires one_table { self.old.pass.table ≡ heap.now }
        requires word { is_word heap.now.config x ≡ true }
        requires no_register { is_register x ≡ false }
        ensures host { self.new ≡ with_seen self.old self.new.pass.seen }
        ensures tells { TellsWord self.old.pass x result self.new.pass }
        ensures reached { SweepsNothing self.old.pass self.new.pass }
        ensures overs { has_over self.new.pass.seen ≡ has_over self.old.pass.seen }
    {
        let words = &heap.words;
        let home = take_home(&mut self.pass);
        let mut turn = take_turn(rt, words, home, None);
        let found = turn.look(words, x);
        let back = turn.give(words);
        self.pass = Some(back);
        found
    }
}
