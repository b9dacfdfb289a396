//! What looks at the table's words say, what a cycle releases, and which words are 0, in all histories: facts only,
//! with no code.

ghost use Rattle.mk_core.specs.Readings.{SnapshotsTell};
ghost use Rattle.mk_laws.specs.{Theorems.OfHistories, WordLaws.{FreeCellsAreZero, Leaves, UnmappedWordsAreZero}};
ghost use Rattle.mk_laws.specs.WordLaws.{WordsBehindCellsAreZero, WordsOfNoneAreZero};
ghost use Rattle.mk_laws.specs.WordLaws.{DirtyPagesHaveAllocations, FreePagesHaveNothing};
ghost use Rattle.mk_laws.specs.{WordLaws.HeadersAndQuarantineTell, Releases.{NoOthersRelease, ReleasesAreExact}};
ghost use Rattle.mk_laws.specs.Releases.{ReleasesAreOfCycles, ReleasesNoneReached};
ghost use Rattle.mk_laws.specs.WordLaws.{UnmappedRunsTakeNoMemory};
ghost use Rattle.mk_laws.specs.WordLaws.{RegistersOfNoCallerAreZero, UnsetGlobalsAreZero};

/// What a look at a header word and at the freed bits of a quarantine word says.
#[tactic(auto, using(crate::proofs::ReadingsStands::headers_and_quarantine_tell))]
pub fn words_tell_what_stands()
    ensures { OfHistories HeadersAndQuarantineTell }
{}

/// From a `begin` up to its `release` the snapshot bits are those of the allocations that were in quarantine then.
#[tactic(auto, using(crate::proofs::Snapshots::snapshots_tell))]
pub fn snapshots_tell()
    ensures { OfHistories SnapshotsTell }
{}

/// A `release` releases the allocations of its cycle's snapshot whose cells have no mark, and none that is reached;
/// no other event releases any.
#[tactic(auto, using(crate::proofs::Releases::releases_are_exact_facts))]
pub fn releases_are_exact()
    ensures exact { OfHistories ReleasesAreExact }
    ensures none_reached { OfHistories ReleasesNoneReached }
    ensures no_others { OfHistories NoOthersRelease }
    ensures of_cycles { OfHistories ReleasesAreOfCycles }
{}

/// Unless the phase is releasing, words are 0 in cells without an allocation, after the cells of a page, and on free
/// pages.
#[tactic(auto, using(crate::proofs::FreeWords::free_cells_are_zero_facts))]
pub fn free_cells_are_zero()
    ensures of_none { OfHistories (Leaves WordsOfNoneAreZero) }
    ensures unmapped { OfHistories (Leaves UnmappedWordsAreZero) }
    ensures cells { OfHistories (Leaves FreeCellsAreZero) }
    ensures behind_cells { OfHistories (Leaves WordsBehindCellsAreZero) }
{}

/// The used word, the quarantine word and the dirty word of a page without a header are 0. So each dirty page has an
/// unreleased allocation.
#[tactic(auto, using(crate::proofs::FreePages::free_pages_have_nothing_facts))]
pub fn free_pages_have_nothing()
    ensures free { OfHistories (Leaves FreePagesHaveNothing) }
    ensures dirty { OfHistories (Leaves DirtyPagesHaveAllocations) }
{}

/// Registers of callers that the configuration doesn't have hold 0, and so do globals that no `setg` stored to.
#[tactic(auto, using(crate::proofs::UnsetWords::unset_words_are_zero_facts))]
pub fn unset_words_are_zero()
    ensures registers { OfHistories (Leaves RegistersOfNoCallerAreZero) }
    ensures globals { OfHistories UnsetGlobalsAreZero }
{}

/// The pages of a freed large allocation aren't resident from its last `head` on, until they become a block or a run
/// again.
#[tactic(auto, using(crate::proofs::UnmappedRuns::unmapped_runs_take_no_memory))]
pub fn unmapped_runs_take_no_memory()
    ensures { OfHistories UnmappedRunsTakeNoMemory }
{}
