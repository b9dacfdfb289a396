//! A marker's pass: what a marker is at, kept beside the right to make its steps.
ghost use Rattle.std.specs.Prelude.{◌≡◌, true, false};
ghost use Rattle.mk_core.specs.{History.IsHistory, Counts.IsTidy, Moments.outside};
ghost use Rattle.mk_core.specs.{Conditions.group_of, declared.events.Group.TheVariants.Markers};
ghost use Rattle.mk_words.specs.{States.{CallersAreBeforeOver, Has}, PageMaps.is_handing};
ghost use Rattle.mk_words.specs.Steps.{marker_in, Marks, MayPerform};

use crate::passes::Pass;
use crate::tokens::SeatToken;
use crate::words::Words;
use mk_core::{Access, Marker, Presence, Step, TableWord, marker_behind};
use std::marker::Model;

/// What a marker that is out is in the middle of.
pub(crate) const OUTSIDE: Marker = Marker {
    presence: Presence::Out,
    scan: None,
    hand: None,
    seen: None,
};

/// The pass of a marker's seat, with what the marker is at. So its steps need no further numbers, and the passes of
/// other seats are moved in few words.
#[derive(Drop)]
pub struct MarkerPass {
    own: SeatToken,
    marker: Marker,
}

impl Model for MarkerPass {
    ghost use Rattle.std.specs.Prelude.{◌≡◌};
    ghost use Rattle.mk_words.specs.{States.PassState, Steps.marker_in};

    ghost Value = { PassState };

    ghost view = { λ p. p.own };

    ghost invariant = { λ p. p.marker ≡ marker_in p.own };
}

impl MarkerPass {
    /// The pass of a marker that is out.
    pub fn new(pass: Pass) -> MarkerPass
        requires out { marker_in pass ≡ outside }
        ensures { result ≡ pass }
    {
        let Pass { own } = pass;
        MarkerPass {
            own,
            marker: OUTSIDE,
        }
    }

    /// The pass alone.
    pub fn into_pass(self) -> Pass
        ensures { result ≡ self }
    {
        let MarkerPass { own, .. } = self;
        Pass { own }
    }

    /// What holds of every pass. It does nothing.
    #[inline(always)]
    pub fn is_in_order(&self)
        ensures own { Has self.now.seats self.now.seat }
        ensures history { IsHistory self.now.table.config self.now.seen }
        ensures before_over { CallersAreBeforeOver self.now.table.config self.now.seats self.now.seen }
        ensures tidy { IsTidy self.now.table.config self.now.seen }
    {
        self.own.is_in_order();
    }

    /// What its seat is in the middle of as a marker.
    #[inline(always)]
    pub(crate) fn marker(&self) -> Marker
        ensures { result ≡ marker_in self.now }
    {
        self.marker
    }

    /// Takes a step of a marker's, and keeps what the marker is at then.
    #[inline(always)]
    pub(crate) fn perform_marking(
        &mut self,
        words: &Words,
        step: Step,
        word: TableWord,
        by: Access,
    ) -> u64
        requires one_table { self.old.table ≡ words.now }
        requires kind { group_of step ≡ Markers }
        requires hands_none { is_handing step ≡ false }
        requires may { MayPerform self.old step word by }
        ensures { Marks self.old step result self.new }
    {
        words.is_within_limits();
        let marker = self.marker;
        let found = self.own.perform(words, step, word, by);
        self.marker = marker_behind(&words.config, found, step, marker);
        found
    }
}
