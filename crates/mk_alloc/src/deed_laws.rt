//! The deeds of a history, seven kinds in place of all its events: facts, without code.
ghost use Rattle.mk_alloc.specs.Deeds.{BoundsAreOverDeeds, DeedsGiveBack, DeedsLeaveTheStorage, DeedsSayWhyFull};

/// The allocations that the deeds of a history leave are its own, and they give back what it gave back.
#[tactic(auto, using(crate::proofs::Deeds::deeds_are_the_historys_facts))]
pub fn deeds_are_the_historys()
    ensures leave { DeedsLeaveTheStorage }
    ensures give_back { DeedsGiveBack }
{}

/// What quarantine costs, and why a `New` is full, said over deeds.
pub fn deeds_tell()
    ensures bounds { BoundsAreOverDeeds }
    ensures fulls { DeedsSayWhyFull }
{}
