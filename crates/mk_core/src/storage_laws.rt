//! Laws of the storage of allocations: facts only, with no code.
ghost use Rattle.mk_core.specs.Allocations.{HeadersShowParts, PartsNameTheirHeads, FirstPartsHaveCells};
ghost use Rattle.mk_core.specs.Allocations.{LaterPartsHaveNone};
ghost use Rattle.mk_core.specs.Allocations.{StorageHoldsObjects, StandingHasStorage, HeadersShowStorage};
ghost use Rattle.mk_core.specs.Allocations.{PointersHitAllocations, CellsBeginAtBases};
ghost use Rattle.mk_core.specs.Allocations.{UnreleasedStorageIsOfAllocations, UnreleasedStorageInParts};

/// The header words that the pages of an object get, mapped or not, show where it begins, its cells and
/// their words, and whether they are scanned.
#[tactic(auto, using(crate::proofs::ObjectHeaders::headers_show_their_objects_facts))]
pub fn headers_show_their_objects()
    ensures parts { HeadersShowParts }
    ensures heads { PartsNameTheirHeads }
    ensures first { FirstPartsHaveCells }
    ensures later { LaterPartsHaveNone }
{}

/// An allocation on the heap has a storage there, which the headers of its pages show. An address in it points, by
/// lookup, into its cell, which begins at its base and has its words.
#[tactic(auto, using(crate::proofs::StandingAllocations::an_allocation_has_its_cell_facts))]
pub fn an_allocation_has_its_cell()
    ensures words { StorageHoldsObjects }
    ensures storage { StandingHasStorage }
    ensures headers { HeadersShowStorage }
    ensures pointers { PointersHitAllocations }
    ensures cells { CellsBeginAtBases }
{}

/// The unreleased storage is that of the unreleased allocations. That of a list in two parts is that of the first part
/// and then of the second.
#[tactic(auto, using(crate::proofs::UnreleasedStorage::unreleased_in_parts))]
pub fn unreleased_storage_is_of_allocations()
    ensures contains { UnreleasedStorageIsOfAllocations }
    ensures parts { UnreleasedStorageInParts }
{}
