//! The map: what it is, and how it begins.
ghost use Rattle.std.specs.Prelude.{◌≤◌, IfOk, length, replicate};
ghost use Rattle.mk_geom.specs.Storages.{free_page};
ghost use Rattle.mk_books.specs.KnownPages.{Shows};

use crate::sorting::free_sets;
use mk_geom::{FREE_PAGE, Page};
use std::alloc::{AllocError, Global};
use std::marker::Model;

/// What is known of a heap's pages, of which there are at most 4,096: the words of each, a count of the resident ones,
/// and sets of pages, so that pages of a kind are found without a walk.
#[derive(Drop)]
pub struct PageMap {
    pub(crate) pages: Vec<Page>,
    pub(crate) sets: Vec<u64>,
    pub(crate) resident: u64,
}

impl Model for PageMap {
    ghost use Rattle.std.specs.Prelude.{length};
    ghost use Rattle.mk_books.specs.KnownPages.{KnownPages};

    ghost Value = { KnownPages };

    ghost use Rattle.mk_books.specs.PageSets.{FitPages, members};

    ghost view = { λ m. record {
      pages = m.pages.items;
      quarantined = members m.sets.items 18 (length m.pages.items);
      uncleaned = members m.sets.items 19 (length m.pages.items);
    } };

    ghost invariant = { λ m. FitPages m.pages.items m.sets.items m.resident };
}

impl PageMap {
    /// The map of this many free pages.
    pub fn new(alloc: Global, pages: u64) -> Result<PageMap, AllocError>
        requires { pages ≤ 4096 }
        ensures { IfOk result
            (λ map. Shows map (replicate pages free_page) (replicate pages 0)) }
    {
        let sets = free_sets(alloc, pages)?;
        let pages = vec![in alloc; FREE_PAGE; pages as usize]?;
        Ok(PageMap {
            pages,
            sets,
            resident: 0,
        })
    }
}
