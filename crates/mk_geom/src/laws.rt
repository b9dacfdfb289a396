//! Laws of pages and the storages that they stand for: facts only, with no code. A proof that needs a law calls its
//! function, or cites the lemma that proves it.
ghost use Rattle.std.specs.Prelude.{List};
ghost use Rattle.mk_geom.specs.{Storages.{Storage, PagesStandFor}, Laws.{ShowWhatStands, FreePagesStandForNothing}};
ghost use Rattle.mk_geom.specs.{declared.pages.Page.Page, Laws.CellPageHasWords};
ghost use Rattle.mk_geom.specs.Laws.{RunPageHasWords, BarePageIsFree, PointsIntoCell, CellHasPointers};
ghost use Rattle.mk_geom.specs.Laws.{PointersHitCells, UsedCellHasStorage, CellsTellStoragesApart};
ghost use Rattle.mk_geom.specs.Laws.{AddressesOfWordsPointIn, CellHasFirstWord, FoundCellIsPlace, FoundRunIsPlace};

/// The place of an object, whether one fits, the census and the held words can be read off the pages as they are.
pub fn pages_show_what_stands_there()
    ensures { (pages : List Page) (storages : List Storage) → PagesStandFor pages storages
        → ShowWhatStands pages storages }
{}

/// The words of a page can be read off any storage that is on it.
pub fn pages_have_the_words_of_storages()
    ensures cell { CellPageHasWords }
    ensures run { RunPageHasWords }
    ensures bare { BarePageIsFree }
{}

/// If the header of its page shows a storage, what points into the storage points into its cell, and nothing else does.
/// So it is on pages that stand for storages.
#[tactic(auto, using(crate::proofs::PointedCells::cell_first, crate::proofs::PointedCells::address_points_into))]
pub fn a_storage_has_its_cell()
    ensures points_into { PointsIntoCell }
    ensures points_back { CellHasPointers }
    ensures on_pages { PointersHitCells }
    ensures used { UsedCellHasStorage }
    ensures first_word { CellHasFirstWord }
    ensures apart { CellsTellStoragesApart }
    ensures addresses { AddressesOfWordsPointIn }
{}

/// The pages of a new heap stand for no storage.
pub fn free_pages_stand_for_nothing()
    ensures { FreePagesStandForNothing }
{}

/// The object may take the place that first fit finds. A run of at most 4096 words has 1 to 64 pages.
pub fn first_fit_finds_places()
    ensures cells { FoundCellIsPlace }
    ensures runs { FoundRunIsPlace }
{}
