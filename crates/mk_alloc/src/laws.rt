//! What calls leave of the turns before: facts, without code.
ghost use Rattle.mk_alloc.specs.TurnCalls.{StayExactBehindCalls, StayExactWhereHeld, StayExactBehindTurns};
ghost use Rattle.mk_alloc.specs.TurnCalls.{StayExactBehindOthers, CallsSweepNothing, SweepNothingWhereHeld};

/// A caller's turns stay exact, whatever its next call is, and whatever others do.
pub fn turns_stay_exact()
    ensures calls { StayExactBehindCalls }
    ensures held { StayExactWhereHeld }
    ensures turns { StayExactBehindTurns }
    ensures others { StayExactBehindOthers }
{}

/// A caller's calls without a turn make no sweeping mark.
pub fn calls_sweep_nothing()
    ensures calls { CallsSweepNothing }
    ensures held { SweepNothingWhereHeld }
{}
