//! Laws of runs. Each is the contract of a function that does nothing.
ghost use Rattle.mk_run.specs.Headline.{NoAnswerIsLeft, RunsKeepTheirPromises, RunsPrintTheirTexts};
ghost use Rattle.mk_run.specs.Headline.{RunsStandInOneHistory};
ghost use Rattle.mk_run.specs.Headline.{PrintedRunsCanBeObserved, RunsCanBeObserved};

/// The replies of a run stand in one history, each script's operations there once and in order.
pub fn runs_stand_in_one_history()
    ensures { RunsStandInOneHistory }
{}

/// Such a history keeps all promises, and no script has an answer left over.
pub fn runs_keep_their_promises()
    ensures promises { RunsKeepTheirPromises }
    ensures none_left { NoAnswerIsLeft }
{}

/// The texts of a run are what its scripts print of that history.
pub fn runs_print_their_texts()
    ensures { RunsPrintTheirTexts }
{}

/// A run that stands in one history can be observed.
pub fn runs_can_be_observed()
    ensures of_histories { RunsCanBeObserved }
    ensures printed { PrintedRunsCanBeObserved }
{}
