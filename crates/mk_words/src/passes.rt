//! Passes: who has one may make the steps of its seat.
ghost use Rattle.std.specs.Prelude.{◌≡◌, true, false};
ghost use Rattle.mk_core.specs.{Accesses.caller_number, History.IsHistory, Counts.IsTidy};
ghost use Rattle.mk_words.specs.{States.{CallersAreBeforeOver, Has, is_caller}, PageMaps.is_handing};
ghost use Rattle.mk_words.specs.{Steps.{MayPerform, Tells}};

use crate::indexes::page_of;
use crate::tokens::SeatToken;
use crate::words::Words;
use mk_core::{Access, Seat, Step, TableWord};
use std::marker::Model;

/// The right to make the steps of one seat, of no use for another table than its own. It knows a list of the events
/// so far, which has all those of its seats: its own, and those of the passes that were joined to it.
#[derive(Drop)]
pub struct Pass {
    pub(crate) own: SeatToken,
}

impl Model for Pass {
    ghost use Rattle.mk_words.specs.States.{PassState};

    ghost Value = { PassState };

    ghost view = { λ p. p.own };
}

impl Pass {
    /// Whose pass it is.
    pub fn seat(&self) -> Seat
        ensures { result ≡ self.now.seat }
    {
        self.own.seat()
    }

    /// What holds of every pass. It does nothing.
    #[inline(always)]
    pub fn is_in_order(&self)
        ensures own { Has self.now.seats self.now.seat }
        ensures history { IsHistory self.now.table.config self.now.seen }
        ensures before_over { CallersAreBeforeOver self.now.table.config self.now.seats self.now.seen }
        ensures tidy { IsTidy self.now.table.config self.now.seen }
    {
        self.own.is_in_order();
    }

    /// The number of the caller whose seat it is.
    #[inline(always)]
    pub fn caller(&self) -> u64
        requires { is_caller self.now.seat ≡ true }
        ensures { result ≡ caller_number self.now.seat }
    {
        self.own.caller()
    }

    /// Takes a step of any kind but the two that hand over the turn, in a table of this many pages.
    #[inline(always)]
    pub(crate) fn perform_among(
        &mut self,
        words: &Words,
        pages: u64,
        step: Step,
        word: TableWord,
        by: Access,
    ) -> u64
        requires one_table { self.old.table ≡ words.now }
        requires pages { pages ≡ words.now.config.pages }
        requires hands_none { is_handing step ≡ false }
        requires may { MayPerform self.old step word by }
        ensures told { Tells self.old step result self.new }
    {
        let page = page_of(word);
        self.own.perform_near(words, pages, page, step, word, by)
    }

    /// Takes a step of any kind but the two that hand over the turn.
    #[inline(always)]
    pub(crate) fn perform(&mut self, words: &Words, step: Step, word: TableWord, by: Access) -> u64
        requires one_table { self.old.table ≡ words.now }
        requires hands_none { is_handing step ≡ false }
        requires may { MayPerform self.old step word by }
        ensures told { Tells self.old step result self.new }
    {
        self.own.perform(words, step, word, by)
    }
}
