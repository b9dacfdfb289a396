//! The theorems over all histories in one place: facts only, with no code.

ghost use Rattle.mk_laws.specs.{Theorems.OfHistories, Promises.KeepsAllPromises};

/// Every list of events keeps all promises, if it is within the limits, its events are enabled and its calls are
/// admitted.
pub fn histories_keep_all_promises()
    ensures { OfHistories KeepsAllPromises }
{}
