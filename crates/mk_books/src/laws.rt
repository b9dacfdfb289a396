//! Laws of first fit in the words that a page map answers in: facts only, with no code.
ghost use Rattle.mk_books.specs.KnownPages.{LowestBlockHasThePlace};

/// Where a small object goes by first fit is told by the lowest block of its class and sort that has a free cell, the
/// lowest free page, and how many pages are resident.
#[tactic(auto, using(crate::proofs::FirstFit::lowest_block_has_the_place))]
pub fn the_lowest_block_has_the_place()
    ensures { LowestBlockHasThePlace }
{}
