//! Laws of histories: facts only, with no code.
ghost use Rattle.std.specs.Prelude.{ℕ, Bool, List};
ghost use Rattle.mk_core.specs.{declared.config.Config.Config, Enabled.EnabledEventsMeetAll};
ghost use Rattle.mk_core.specs.{HistoryLaws.{IsOfTwoParts, BitsWithout, LargeIsNotSmall}, Cycles.Marking};
ghost use Rattle.mk_core.specs.Cycles.{TouchedIsClosed, TouchedIsLeast};

use crate::Event;

/// A list of events leaves, decides and asks for what its earlier part does, and then its later part after that. The
/// earlier part of a history is a history.
pub fn histories_are_of_two_parts()
    ensures { (c : Config) (es more : List Event) → IsOfTwoParts c es more }
{}

/// An event is enabled exactly if it meets each condition.
#[tactic(auto, using(crate::proofs::Conditions::enabled_events_meet_all))]
pub fn enabled_events_meet_all_conditions()
    ensures { EnabledEventsMeetAll }
{}

/// What definitions of the words and of the never-reusing heap share: bits, and which objects are large.
#[tactic(auto, using(crate::proofs::BitsWithout::has_bit_without, crate::proofs::Sizes::large_is_not_small))]
pub fn bits_and_sizes_agree()
    ensures without { BitsWithout }
    ensures large { LargeIsNotSmall }
{}

/// What is touched in a cycle is closed under pointers along it, and is the least such set.
#[tactic(auto, using(crate::proofs::Touched::touched_is_closed, crate::proofs::Touched::touched_is_least))]
pub fn what_is_touched()
    ensures closed { (c : Config) (es : List Event) (k : Marking es) → TouchedIsClosed c k }
    ensures least { (c : Config) (es : List Event) (k : Marking es) (S : ℕ → Bool) → TouchedIsLeast c k S }
{}
