//! Laws of the steps that passes make: facts alone, with no code.
ghost use Rattle.mk_words.specs.Laws.{CallsGoOn, EndIsBehindOver, StepsStandBehindOthers};

/// What a pass knows of its step: what others left it up to then, and what the step leaves.
pub fn steps_stand_behind_others()
    ensures { StepsStandBehindOthers }
{}

/// How a caller's call goes on after each of its steps.
pub fn calls_go_on()
    ensures { CallsGoOn }
{}

/// The phase word says that all is over only after an `over`.
pub fn the_end_is_behind_an_over()
    ensures { EndIsBehindOver }
{}
