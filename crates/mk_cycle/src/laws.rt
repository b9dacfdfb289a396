//! Laws of tracing: facts, without code.
ghost use Rattle.mk_cycle.specs.Grays.{ReachedMarksSweepNothing};

/// Steps by the rule of tracing in the stop make no sweeping mark.
pub fn reached_marks_sweep_nothing()
    ensures { ReachedMarksSweepNothing }
{}
