//! A table that writes to its memory only as far as entries were set.
ghost use Rattle.std.specs.Prelude.{◌≡◌, ◌≤◌, ◌<◌, ℕ, IfOk, length, replicate, slice_index_or, slice_set};

use mk_never::NoMemory;
use std::alloc::Global;
use std::marker::Model;

/// A table of a fixed size, whose entries are all the same at first. Its memory is reserved when it is made, but the
/// system gives pages only when they are written to: a table that is hardly used takes little, and is made at once.
#[derive(Drop)]
pub(crate) struct LazyTable<T: Copy> {
    // The entries up to the last one that was set.
    entries: Vec<T>,
    // Each entry after these.
    rest: T,
    size: usize,
}

impl<T: Copy> Model for LazyTable<T> {
    ghost use Rattle.std.specs.Prelude.{◌≤◌, length, vec_capacity};
    ghost use Rattle.mk_why.specs.LazyTables.{TableState, completed};

    ghost Value = { TableState T };

    ghost view = { λ table. record {
      items = completed table.entries.items table.rest table.size;
      rest = table.rest;
    } };

    ghost invariant = { λ x. (length x.entries.items ≤ x.size) × (x.size ≤ vec_capacity x.entries) };
}

impl<T: Copy> LazyTable<T> {
    /// A table of this size, where each entry has this value.
    pub(crate) fn new(alloc: Global, value: T, size: usize) -> Result<LazyTable<T>, NoMemory>
        ensures items { IfOk result (λ table. table.items ≡ replicate size value) }
        ensures rest { IfOk result (λ table. table.rest ≡ value) }
    {
        let entries = Vec::with_capacity(alloc, size)?;
        Ok(LazyTable {
            entries,
            rest: value,
            size,
        })
    }

    /// Where the entries begin that were never set.
    pub(crate) fn end(&self) -> usize
        ensures within { result ≤ length self.now.items }
        ensures rest { (place : ℕ) → result ≤ place
            → slice_index_or self.now.items place self.now.rest ≡ self.now.rest }
    {
        self.entries.len()
    }

    /// The entry in a place. A place after the last one has what those have that were never set.
    #[inline(always)]
    pub(crate) fn get(&self, place: usize) -> T
        ensures { result ≡ slice_index_or self.now.items place self.now.rest }
    {
        if place < self.entries.len() {
            self.entries[place]
        } else {
            self.rest
        }
    }

    /// Sets the entry in a place.
    pub(crate) fn set(&mut self, place: usize, value: T)
        requires { place < length self.old.items }
        ensures items { self.new.items ≡ slice_set self.old.items place value }
        ensures rest { self.new.rest ≡ self.old.rest }
    {
        if self.entries.len() <= place {
            self.entries.resize(place, self.rest).unwrap();
            self.entries.push_reserved(value);
            return;
        }
        self.entries[place] = value;
    }

    /// Sets all entries to a value.
    pub(crate) fn clear(&mut self, value: T)
        ensures items { self.new.items ≡ replicate (length self.old.items) value }
        ensures rest { self.new.rest ≡ value }
    {
        self.entries.clear();
        self.rest = value;
    }
}
