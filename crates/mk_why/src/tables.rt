//! The tables of a search, and of what a cycle kept.
ghost use Rattle.std.specs.Prelude.{◌≡◌, ◌≤◌, ℕ, None, count_by, is_some, length};

use crate::found::{Found, Storage};
use crate::lazy_table::LazyTable;
use mk_never::NoMemory;
use std::alloc::Global;

/// Tables over the heap words, which have each allocation at its first word: how it was found, and its storage if it
/// was kept. The queue has the first words of the allocations that were found, in the order in which they were.
#[derive(Drop)]
pub(crate) struct Tables {
    pub(crate) found: LazyTable<Option<Found>>,
    pub(crate) queue: LazyTable<u64>,
    pub(crate) count: usize,
    pub(crate) kept: LazyTable<Option<Storage>>,
    ghost queues: { length queue.items ≡ length found.items },
    ghost keeps: { length kept.items ≡ length found.items },
    ghost full: { count_by is_some found.items ≡ count },
    ghost none_found: { found.rest ≡ None },
    ghost none_queued: { queue.rest ≡ 0 },
    ghost none_kept: { kept.rest ≡ None },
    ghost small: { length found.items ≤ 262144 },
}

impl Tables {
    ghost use Rattle.std.specs.Prelude.{◌<◌, ◌*◌, ◌+◌, true, false, Some, IfOk, slice_set};
    ghost use Rattle.mk_why.specs.Searching.{entry_at};

    /// Empty tables for a heap of this many pages.
    pub(crate) fn new(alloc: Global, pages: u64) -> Result<Tables, NoMemory>
        requires { pages ≤ 4096 }
        ensures size { IfOk result (λ made. length made.found.items ≡ 64 * pages) }
        ensures none { IfOk result (λ made. (base : ℕ) → entry_at made.kept.items base ≡ None) }
    {
        let words = 64 * pages as usize;
        let found = LazyTable::new(alloc, None, words)?;
        let queue = LazyTable::new(alloc, 0, words)?;
        let kept = LazyTable::new(alloc, None, words)?;
        Ok(Tables {
            found,
            queue,
            count: 0,
            kept,
        })
    }

    /// Notes how the allocation was found that begins at this heap word, unless it was found before.
    pub(crate) fn note(&mut self, base: u64, found: Found)
        requires { base < length self.old.found.items }
        ensures kept { self.new.kept ≡ self.old.kept }
        ensures known { is_some (entry_at self.old.found.items base) ≡ true → self.new ≡ self.old }
        ensures noted { is_some (entry_at self.old.found.items base) ≡ false
            → self.new.found.items ≡ slice_set self.old.found.items base (Some found) }
        ensures last { is_some (entry_at self.old.found.items base) ≡ false
            → self.new.queue.items ≡ slice_set self.old.queue.items self.old.count base }
        ensures more { is_some (entry_at self.old.found.items base) ≡ false → self.new.count ≡ self.old.count + 1 }
        ensures room { self.new.count ≤ length self.new.queue.items }
    {
        let place = base as usize;
        if self.found.get(place).is_some() {
            return;
        }
        self.found.set(place, Some(found));
        self.queue.set(self.count, base);
        self.count += 1;
    }

    /// Lists a kept allocation, which begins at this heap word.
    pub(crate) fn keep(&mut self, base: u64, storage: Storage)
        requires { base < length self.old.kept.items }
        ensures kept { self.new.kept.items ≡ slice_set self.old.kept.items base (Some storage) }
        ensures found { self.new.found ≡ self.old.found }
    {
        self.kept.set(base as usize, Some(storage));
    }

    /// Forgets what was found.
    pub(crate) fn forget_found(&mut self)
        ensures size { length self.new.found.items ≡ length self.old.found.items }
        ensures none { (base : ℕ) → entry_at self.new.found.items base ≡ None }
        ensures empty { self.new.count ≡ 0 }
    {
        self.found.clear(None);
        self.count = 0;
    }

    /// Forgets what was kept.
    pub(crate) fn forget_kept(&mut self)
        ensures size { length self.new.kept.items ≡ length self.old.kept.items }
        ensures none { (base : ℕ) → entry_at self.new.kept.items base ≡ None }
        ensures found { self.new.found ≡ self.old.found }
    {
        self.kept.clear(None);
    }
}
