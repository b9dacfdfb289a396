//! Cells that were marked and are still to be scanned.
ghost use Rattle.std.specs.Prelude.{◌≡◌, ◌≤◌, ◌<◌, [], Some, IfNone, IfSome, vec_len};

use crate::noted::Noted;
use mk_never::NoMemory;
use std::alloc::Global;

/// The cells that were marked last and aren't scanned yet, as far as there is room. One that finds no room is
/// forgotten, and found again when the list's owner looks for gray cells page by page, from the page where it found the
/// last one. A list that is whole has each gray cell, so its owner needn't look for others.
#[derive(Drop)]
pub struct Worklist {
    cells: Vec<Noted>,
    pub(crate) is_whole: bool,
    pub(crate) page: u64,
}

impl Worklist {
    ghost use Rattle.mk_cycle.specs.Grays.{Adds, listed, with_last};

    /// An empty list for a heap of this many pages, with all the room that it ever has.
    pub fn new(alloc: Global, pages: u64) -> Result<Worklist, NoMemory>
        requires { pages ≤ 4096 }
    {
        let cells = Vec::with_capacity(alloc, 64 + 8 * pages as usize)?;
        Ok(Worklist {
            cells,
            is_whole: false,
            page: 0,
        })
    }

    /// Forgets all cells. The list is whole if there is no gray cell.
    pub(crate) fn forget(&mut self, is_whole: bool)
        ensures none { self.new.cells.items ≡ [] }
        ensures whole { self.new.is_whole ≡ is_whole }
    {
        self.cells.clear();
        self.is_whole = is_whole;
    }

    /// Notes a cell, if there is room.
    #[inline(always)]
    pub(crate) fn push(&mut self, noted: Noted)
        ensures { Adds self.old (Some noted) self.new }
    {
        if self.cells.len() < self.cells.capacity() {
            self.cells.push_reserved(noted);
        } else {
            self.is_whole = false;
        }
    }

    /// Notes a cell, if there is one, and room for it.
    #[inline(always)]
    pub(crate) fn extend(&mut self, noted: Option<Noted>)
        ensures { Adds self.old noted self.new }
    {
        if let Some(noted) = noted {
            self.push(noted);
        }
    }

    /// The cell that was noted last, which the list then has no more.
    #[inline(always)]
    pub(crate) fn pop(&mut self) -> Option<Noted>
        ensures fewer { IfSome result (λ noted. vec_len self.new.cells < vec_len self.old.cells) }
        ensures last { listed self.old ≡ with_last self.new result }
        ensures none { IfNone result (self.new.cells.items ≡ []) }
    {
        self.cells.pop()
    }
}
