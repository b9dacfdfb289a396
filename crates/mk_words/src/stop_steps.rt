//! The steps by which the turn's holder holds and opens gates and begins a cycle.
ghost use Rattle.std.specs.Prelude.{◌≡◌, true, false, OnOk, OnErr};
ghost use Rattle.mk_core.specs.Moments.{is_held, others_are_held};
ghost use Rattle.mk_words.specs.{Steps.{IsEnabledTo, IsAdmittedTo, Finds, may_decide}, TurnSteps.Acts};
ghost use Rattle.mk_words.specs.States.{HasCallers, now_of};
ghost use Rattle.mk_core.specs.declared.events.Step.TheVariants as step;

use crate::turns::{Stopped, Turn, TurnAt};
use crate::words::Words;
use mk_core::{Access, Step, TableWord, Word};
use std::marker::PhantomData;

/// The caller was in a call, so its gate isn't held.
#[derive(Clone, Copy, Debug, PartialEq, Eq)]
pub struct InCall;

impl Turn {
    /// Holds a caller's gate, unless it is in a call.
    pub fn try_hold(&mut self, words: &Words, caller: u64) -> Result<(), InCall>
        requires one_table { self.old.pass.table ≡ words.now }
        requires enabled { IsEnabledTo self.old.pass (step.Hold caller) }
        ensures acts { Acts self.old.pass (step.Hold caller) self.new.pass }
        ensures found { OnOk result (Finds self.old.pass (step.Hold caller) 0 self.new.pass) }
        ensures held { OnOk result (is_held (now_of self.new.pass).words caller ≡ true) }
        ensures in_call { OnErr result (Finds self.old.pass (step.Hold caller) 1 self.new.pass) }
        ensures not_held { OnErr result (is_held (now_of self.new.pass).words caller ≡ false) }
    {
        let found = self.perform(
            words,
            Step::Hold(caller),
            TableWord::Named(Word::Gate(caller)),
            Access::Exchange { old: 0, new: 2 },
        );
        if found == 0 { Ok(()) } else { Err(InCall) }
    }

    /// Opens a gate that is held.
    pub fn open_gate(&mut self, words: &Words, caller: u64)
        requires one_table { self.old.pass.table ≡ words.now }
        requires enabled { IsEnabledTo self.old.pass (step.Open caller) }
        ensures { Acts self.old.pass (step.Open caller) self.new.pass }
    {
        let gate = TableWord::Named(Word::Gate(caller));
        self.perform(words, Step::Open(caller), gate, Access::Store(0));
    }

    /// Decides a New for which there is no room, after a cycle of its own.
    pub fn full(&mut self, words: &Words)
        requires one_table { self.old.pass.table ≡ words.now }
        requires enabled { IsEnabledTo self.old.pass step.Full }
        requires admitted { IsAdmittedTo self.old.pass step.Full }
        ensures { Acts self.old.pass step.Full self.new.pass }
    {
        self.perform(words, Step::Full, TableWord::Turn, Access::Load);
    }

    /// Begins a cycle.
    pub fn begin(&mut self, words: &Words)
        requires one_table { self.old.pass.table ≡ words.now }
        requires enabled { IsEnabledTo self.old.pass step.Begin }
        ensures { Acts self.old.pass step.Begin self.new.pass }
    {
        let phase = TableWord::Named(Word::Phase);
        self.perform(words, Step::Begin, phase, Access::Add(1));
        words.wake_markers();
    }

    /// Announces that all is over, where the host has the seats of all callers.
    pub fn over(&mut self, words: &Words)
        requires one_table { self.old.pass.table ≡ words.now }
        requires enabled { IsEnabledTo self.old.pass step.Over }
        requires home { HasCallers self.old.pass.table.config self.old.pass.seats }
        ensures { Acts self.old.pass step.Over self.new.pass }
    {
        let phase = TableWord::Named(Word::Phase);
        self.perform(words, Step::Over, phase, Access::Add(5));
        words.wake_markers();
    }

    /// The same turn, where the gates of all other callers are held.
    pub fn stopped(self) -> Stopped
        requires { others_are_held self.pass.table.config.callers (now_of self.pass).words self.pass.seat ≡ true }
        ensures { result ≡ self }
    {
        let TurnAt {
            pass,
            map,
            gates: _,
        } = self;
        TurnAt {
            pass,
            map,
            gates: PhantomData,
        }
    }
}
