//! What the steps of others leave of each seat's own, and what may come next after longer lists: facts only, with no
//! code.

ghost use Rattle.mk_core.specs.{Frames.AdmittedOthersLeave, HistoryLaws.LongerListsGoOn};

/// What the events of other seats leave to a seat in a history, by what it is in the middle of.
#[tactic(auto, using(crate::proofs::SeatFrames::admitted_others_leave))]
pub fn others_leave_what_is_admitted()
    ensures { AdmittedOthersLeave }
{}

/// An event that may come after a list may still come after what others did since. It reaches the same word in the same
/// way, and keeps a tidy list tidy.
pub fn longer_lists_go_on()
    ensures { LongerListsGoOn }
{}
