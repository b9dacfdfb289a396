//! What a seat does in a call, from what its pass had seen to what it has seen now: facts that add up over several
//! calls, with no code.
ghost use Rattle.mk_words.specs.Steps.{NothingIsDone, DoneInTurn, StepsAreDone};
ghost use Rattle.mk_words.specs.Sweeping.{NothingSweepsNothing, NothingIsSweptInTurn, OtherKindsSweepNothing};
ghost use Rattle.mk_words.specs.Sweeping.{StepsMaySweepNothing};

/// Nothing done is allowed, what is done one after the other adds up, and a step of an allowed kind is done.
#[tactic(auto, using(crate::proofs::Doing::does_nothing, crate::proofs::Doing::does_then))]
pub fn what_is_done_adds_up()
    ensures nothing { NothingIsDone }
    ensures in_turn { DoneInTurn }
    ensures step { StepsAreDone }
{}

/// Where nothing is done nothing is swept, nor where nothing is swept by one part and then by the other, by steps that
/// aren't marks, or by a step that is no sweeping mark.
#[tactic(auto, using(crate::proofs::Sweeping::what_sweeps_nothing_adds_up_facts))]
pub fn what_sweeps_nothing_adds_up()
    ensures nothing { NothingSweepsNothing }
    ensures in_turn { NothingIsSweptInTurn }
    ensures kinds { OtherKindsSweepNothing }
    ensures step { StepsMaySweepNothing }
{}
