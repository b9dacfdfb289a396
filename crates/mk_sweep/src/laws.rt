//! Laws of sweeps: facts, without code.
ghost use Rattle.mk_sweep.specs.Sweeps.{UnsweptStaysUnmarked, UnsweptIsReleased};

/// What isn't swept is unmarked after a sweep, if it was so before and no other seat marks it meanwhile.
pub fn what_is_not_swept_stays_unmarked()
    ensures { UnsweptStaysUnmarked }
{}

/// So a cycle releases what is in its snapshot and isn't swept, if no step but those of its sweep marks it.
pub fn what_is_not_swept_is_released()
    ensures { UnsweptIsReleased }
{}
