//! The steps of the turn's holder that it takes only while the gates of all other callers are held.
ghost use Rattle.std.specs.Prelude.{◌≡◌, true, false};
ghost use Rattle.mk_core.specs.Moments.{none_is_held, is_number_of};
ghost use Rattle.mk_words.specs.{Steps.{OthersMayOpen, Opens, IsEnabledTo}, States.now_of};
ghost use Rattle.mk_words.specs.TurnSteps.{Acts, IsStopped};
ghost use Rattle.mk_core.specs.declared.events.Step.TheVariants as step;

use crate::gates::AnyGates;
use crate::turns::{Stopped, Turn, TurnAt};
use crate::words::Words;
use mk_core::{Access, Seat, Step, TableWord, Word};
use std::marker::PhantomData;

impl Stopped {
    /// The gates of all callers but its holder are held. It does nothing.
    #[inline(always)]
    pub fn holds_gates(&self)
        ensures { IsStopped self.now.pass }
    {
        let _gates = &self.gates;
    }

    /// Wants the close.
    pub fn want(&mut self, words: &Words)
        requires one_table { self.old.pass.table ≡ words.now }
        requires enabled { IsEnabledTo self.old.pass step.Want }
        ensures { Acts self.old.pass step.Want self.new.pass }
    {
        self.perform(
            words,
            Step::Want,
            TableWord::Named(Word::Phase),
            Access::Add(1),
        );
        words.wake_markers();
    }

    /// Closes the marks.
    pub fn close_phase(&mut self, words: &Words)
        requires one_table { self.old.pass.table ≡ words.now }
        requires enabled { IsEnabledTo self.old.pass step.Close }
        ensures { Acts self.old.pass step.Close self.new.pass }
    {
        self.perform(
            words,
            Step::Close,
            TableWord::Named(Word::Phase),
            Access::Add(1),
        );
    }

    /// Releases what the cycle found unmarked.
    pub fn release(&mut self, words: &Words)
        requires one_table { self.old.pass.table ≡ words.now }
        requires enabled { IsEnabledTo self.old.pass step.Release }
        ensures { Acts self.old.pass step.Release self.new.pass }
    {
        self.perform(
            words,
            Step::Release,
            TableWord::Named(Word::Phase),
            Access::Add(1),
        );
    }

    /// Blackens a marked cell.
    pub fn black(&mut self, words: &Words, page: u64, v: u64)
        requires one_table { self.old.pass.table ≡ words.now }
        requires enabled { IsEnabledTo self.old.pass (step.Black page v) }
        ensures { Acts self.old.pass (step.Black page v) self.new.pass }
    {
        self.black_among(words, words.pages(), page, v);
    }

    /// Blackens a marked cell as `black` does, in a table of this many pages.
    #[inline(always)]
    pub fn black_among(&mut self, words: &Words, pages: u64, page: u64, v: u64)
        requires one_table { self.old.pass.table ≡ words.now }
        requires pages { pages ≡ words.now.config.pages }
        requires enabled { IsEnabledTo self.old.pass (step.Black page v) }
        ensures { Acts self.old.pass (step.Black page v) self.new.pass }
    {
        self.perform_near(
            words,
            pages,
            page,
            Step::Black { page, value: v },
            TableWord::Named(Word::Black(page)),
            Access::Or(v),
        );
    }

    /// Opens the gates of all other callers.
    pub fn open_all(self, words: &Words) -> Turn
        requires one_table { self.pass.table ≡ words.now }
        requires enabled { OthersMayOpen self.pass 0 }
        ensures opens { Opens self.pass result.pass }
        ensures gates { none_is_held self.pass.table.config.callers (now_of result.pass).words ≡ true }
    {
        let TurnAt {
            pass,
            map,
            gates: _,
        } = self;
        let mut turn = TurnAt::<AnyGates> {
            pass,
            map,
            gates: PhantomData,
        };
        let callers = words.callers();
        let mut caller = 0;
        while caller < callers {
            open_other(&mut turn, words, caller);
            caller += 1;
        }
        turn
    }
}

/// Opens the gate of a caller, unless it is the holder itself.
fn open_other(turn: &mut Turn, words: &Words, caller: u64)
    requires one_table { turn.old.pass.table ≡ words.now }
    requires enabled { is_number_of turn.old.pass.seat caller ≡ false → IsEnabledTo turn.old.pass (step.Open caller) }
    ensures opened { is_number_of turn.old.pass.seat caller ≡ false
        → Acts turn.old.pass (step.Open caller) turn.new.pass }
    ensures same { is_number_of turn.old.pass.seat caller ≡ true → turn.new.pass ≡ turn.old.pass }
{
    if !is_number(turn.seat(), caller) {
        turn.open_gate(words, caller);
    }
}

/// Whether the seat is that caller's.
fn is_number(seat: Seat, caller: u64) -> bool
    ensures { result ≡ is_number_of seat caller }
{
    match seat {
        Seat::Caller(own) => own == caller,
        Seat::Marker(_) | Seat::Host => false,
    }
}
