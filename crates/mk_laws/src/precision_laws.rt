//! Precision, over all histories: what a cycle releases, and that its storage is then free. Facts only, with no code.

ghost use Rattle.mk_laws.specs.Theorems.{OfHistories};
ghost use Rattle.mk_laws.specs.Releases.{FreesTheUntouched, KeepsOnlyTheTouched, ReleasesTheUntouched};

/// A cycle without a sweeping mark releases each allocation of its snapshot that isn't touched. What it keeps is
/// touched.
#[tactic(auto, using(crate::proofs::PrecisionStopped::untouched_is_released_facts))]
pub fn untouched_is_released()
    ensures kept { OfHistories KeepsOnlyTheTouched }
    ensures released { OfHistories ReleasesTheUntouched }
{}

/// After the cycle's `end` the storage that it released counts as free.
#[tactic(auto, using(crate::proofs::PrecisionFreeing::frees_the_untouched))]
pub fn what_is_released_is_free()
    ensures { OfHistories FreesTheUntouched }
{}
