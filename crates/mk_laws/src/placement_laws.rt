//! Where the objects of all histories are granted, when a `New` is full, and what the tallies count: facts only, with
//! no code.

ghost use Rattle.mk_core.specs.{Placement.{FullsFitNowhere, GrantsStandAtTheirPlaces}, Readings.TalliesTell};
ghost use Rattle.mk_laws.specs.{Theorems.OfHistories, WordLaws.TalliesAreExactAtGives};

/// Each object is granted at its place by first fit, before the call's first step that serves it.
#[tactic(auto, using(crate::proofs::PlacementTheorems::grants_stand_at_their_places))]
pub fn grants_stand_at_their_places()
    ensures { OfHistories GrantsStandAtTheirPlaces }
{}

/// When a `New` is full nothing fits, and a cycle was begun and ended in its call.
#[tactic(auto, using(crate::proofs::PlacementTheorems::fulls_fit_nowhere))]
pub fn fulls_fit_nowhere()
    ensures { OfHistories FullsFitNowhere }
{}

/// Before each `give`, and while nobody holds the turn, the tallies of held and fresh words are those of the
/// allocations. The other tallies are right while nobody holds the turn, if they were so before each `give`.
#[tactic(auto, using(crate::proofs::Tallies::tallies_are_exact_at_gives, crate::proofs::Tallies::tallies_tell))]
pub fn tallies_are_exact()
    ensures at_gives { OfHistories TalliesAreExactAtGives }
    ensures told { OfHistories TalliesTell }
{}
