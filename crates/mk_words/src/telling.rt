//! What each step of the table says. The calls pick the event, and the seat of a split.

use crate::homes::MapHome;
use crate::rule::View;
use atomic_table::{Join, Play, Split};
use std::marker::{Brand, PhantomData};

/// The event that a step makes.
pub trait Making {
    ghost use Rattle.mk_core.specs.declared.events.Event.{Event};

    ghost event: { Event };
}

impl Making for Brand {
    ghost use Rattle.mk_core.specs.declared.events.{Seat.TheVariants.Host, Step.TheVariants.Leave};

    ghost event = { record { seat = Host; step = Leave } };
}

/// A step that is an event.
pub struct Make<J> {
    of: PhantomData<J>,
}

impl<J: Making> Play<MapHome, View> for Make<J> {
    ghost use Rattle.mk_words.specs.Rule.{adds};

    ghost then = { adds J.event };
}

/// A store that is an event. It isn't told what it finds.
pub struct Put<J> {
    of: PhantomData<J>,
}

impl<J: Making> Play<MapHome, View> for Put<J> {
    ghost use Rattle.std.specs.Prelude.{ℕ};
    ghost use Rattle.mk_words.specs.Rule.{adds};

    ghost then = { λ st m stored n. (found : ℕ) × adds J.event st m found n };
}

/// The step that takes the turn, and the page map with it.
pub struct TakeMap<J> {
    of: PhantomData<J>,
}

impl<J: Making> Play<MapHome, View> for TakeMap<J> {
    ghost use Rattle.mk_words.specs.Rule.{takes_map};

    ghost then = { takes_map J.event };
}

/// The step that gives the turn back, and the page map with it.
pub struct GiveMap<J> {
    of: PhantomData<J>,
}

impl<J: Making> Play<MapHome, View> for GiveMap<J> {
    ghost use Rattle.mk_words.specs.Rule.{gives_map};

    ghost then = { gives_map J.event };
}

/// A look that takes in what came by a join.
pub struct Settle;

impl Play<MapHome, View> for Settle {
    ghost use Rattle.mk_words.specs.Rule.{settles};

    ghost then = { settles };
}

/// The seat that a split hands over.
pub trait Handing {
    ghost use Rattle.mk_core.specs.declared.events.Seat.{Seat};

    ghost seat: { Seat };
}

impl Handing for Brand {
    ghost use Rattle.mk_core.specs.declared.events.Seat.TheVariants.{Host};

    ghost seat = { Host };
}

/// One seat goes with a new pass.
pub struct HandOver<J> {
    of: PhantomData<J>,
}

impl<J: Handing> Split<View> for HandOver<J> {
    ghost use Rattle.mk_words.specs.Rule.{stays_with, goes_with};

    ghost left = { stays_with J.seat };

    ghost right = { goes_with J.seat };
}

/// No seat goes.
pub struct Remember;

impl Split<View> for Remember {
    ghost use Rattle.std.specs.Prelude.{[]};
    ghost use Rattle.mk_words.specs.Rule.{view};

    ghost left = { λ v. v };

    ghost right = { λ v. view v.config [] v.own.seen };
}

/// Two passes become one.
pub struct Together;

impl Join<View> for Together {
    ghost use Rattle.mk_words.specs.Rule.{beside, nobody};

    ghost both = { beside };

    ghost spent = { nobody };
}
