//! The words of the shared table, in plain lists.
ghost use Rattle.std.specs.Prelude.{◌≡◌, ℕ, ◌+◌, ◌*◌, ◌^◌, ◌<◌, ◌==◌, IfOk, replicate, slice_index, slice_set};
ghost use Rattle.mk_geom.specs.Storages.{free_page};
ghost use Rattle.mk_core.specs.Words.{Words, zero_words_of, page_of, header_at, used_at, quarantine_word};
ghost use Rattle.mk_core.specs.Words.{register_word, named_word, word_in, with_named, with_word_in, becomes, accessed};
ghost use Rattle.mk_core.specs.Words.{phase_of, phase_number};
ghost use Rattle.mk_core.specs.declared.events.Word.TheVariants as word;

use crate::phases::phase_bits;
use crate::{Access, Phase, TableWord, Word};
use mk_books::QuarantineWord;
use mk_geom::{FREE_PAGE, Page};
use mk_never::NoMemory;
use std::alloc::Global;
use std::marker::Model;

/// The words, by region. A page's quarantine word is in two halves: its freed cells, and the snapshot.
#[derive(Drop)]
pub(crate) struct Table {
    phase: u64,
    turn: u64,
    held: u64,
    fresh: u64,
    cycles: u64,
    released: u64,
    full: u64,
    gates: Vec<u64>,
    registers: Vec<u64>,
    globals: Vec<u64>,
    pages: Vec<Page>,
    freed: Vec<u32>,
    snapshot: Vec<u32>,
    marks: Vec<u64>,
    blacks: Vec<u64>,
    dirty: Vec<u64>,
    heap: Vec<u64>,
}

impl Model for Table {
    ghost use Rattle.mk_core.specs.Words.{Words};

    ghost Value = { Words };

    ghost view = { λ t. record {
      phase = t.phase;
      turn = t.turn;
      held = t.held;
      fresh = t.fresh;
      cycles = t.cycles;
      released = t.released;
      full = t.full;
      gates = t.gates.items;
      registers = t.registers.items;
      globals = t.globals.items;
      pages = t.pages.items;
      freed = t.freed.items;
      snapshot = t.snapshot.items;
      marks = t.marks.items;
      blacks = t.blacks.items;
      dirty = t.dirty.items;
      heap = t.heap.items;
    } };
}

/// A list of this many zeros.
fn zeros(alloc: Global, count: usize) -> Result<Vec<u64>, NoMemory>
    ensures { IfOk result (λ list. list.items ≡ replicate count 0) }
{
    Ok(Vec::from_elem(alloc, 0, count)?)
}

fn no_cells(alloc: Global, count: usize) -> Result<Vec<u32>, NoMemory>
    ensures { IfOk result (λ list. list.items ≡ replicate count 0) }
{
    Ok(Vec::from_elem(alloc, 0, count)?)
}

fn free_pages(alloc: Global, count: usize) -> Result<Vec<Page>, NoMemory>
    ensures { IfOk result (λ list. list.items ≡ replicate count free_page) }
{
    Ok(Vec::from_elem(alloc, FREE_PAGE, count)?)
}

/// The number at a place of the list; 0 past its end. The place may be greater than any list is long.
fn number_at(list: &[u64], place: u128) -> u64
    ensures { result ≡ slice_index list.now place }
{
    match usize::try_from(place) {
        Ok(place) => list.get(place).copied().unwrap_or(0),
        Err(_) => 0,
    }
}

/// Sets the number at a place of the list. Past its end nothing is set.
fn set_number(list: &mut [u64], place: u128, value: u64)
    ensures { list.new ≡ slice_set list.old place value }
{
    if place < list.len() as u128 {
        list[place as usize] = value;
    }
}

impl Table {
    /// A table of this many pages, all words 0.
    pub(crate) fn start(alloc: Global, pages: u64) -> Result<Table, NoMemory>
        requires { pages < 2 ^ 57 }
        ensures { IfOk result (λ table. table ≡ zero_words_of pages) }
    {
        let count = pages as usize;
        Ok(Table {
            phase: 0,
            turn: 0,
            held: 0,
            fresh: 0,
            cycles: 0,
            released: 0,
            full: 0,
            gates: zeros(alloc, 16)?,
            registers: zeros(alloc, 128)?,
            globals: zeros(alloc, 64)?,
            pages: free_pages(alloc, count)?,
            freed: no_cells(alloc, count)?,
            snapshot: no_cells(alloc, count)?,
            marks: zeros(alloc, count)?,
            blacks: zeros(alloc, count)?,
            dirty: zeros(alloc, count)?,
            heap: zeros(alloc, 64 * count)?,
        })
    }

    /// A page's header word and used word.
    pub(crate) fn page(&self, page: u128) -> Page
        ensures { result ≡ page_of self.now page }
    {
        match usize::try_from(page) {
            Ok(page) => self.pages.get(page).copied().unwrap_or(FREE_PAGE),
            Err(_) => FREE_PAGE,
        }
    }

    /// The header word and used word of each page.
    pub(crate) fn pages(&self) -> &[Page]
        ensures { result.now ≡ self.now.pages }
    {
        self.pages.as_slice()
    }

    /// The freed cells of a page.
    pub(crate) fn freed(&self, page: u64) -> u32
        ensures { result ≡ slice_index self.now.freed page }
    {
        self.freed.get(page as usize).copied().unwrap_or(0)
    }

    /// The cells of a page that are in the snapshot.
    pub(crate) fn snapshot(&self, page: u64) -> u32
        ensures { result ≡ slice_index self.now.snapshot page }
    {
        self.snapshot.get(page as usize).copied().unwrap_or(0)
    }

    pub(crate) fn mark(&self, page: u64) -> u64
        ensures { result ≡ slice_index self.now.marks page }
    {
        number_at(&self.marks, page as u128)
    }

    pub(crate) fn black(&self, page: u64) -> u64
        ensures { result ≡ slice_index self.now.blacks page }
    {
        number_at(&self.blacks, page as u128)
    }

    pub(crate) fn dirty(&self, page: u64) -> u64
        ensures { result ≡ slice_index self.now.dirty page }
    {
        number_at(&self.dirty, page as u128)
    }

    pub(crate) fn gate(&self, caller: u64) -> u64
        ensures { result ≡ slice_index self.now.gates caller }
    {
        number_at(&self.gates, caller as u128)
    }

    pub(crate) fn heap(&self, word: u128) -> u64
        ensures { result ≡ slice_index self.now.heap word }
    {
        number_at(&self.heap, word)
    }

    pub(crate) fn registers(&self) -> &[u64]
        ensures { result.now ≡ self.now.registers }
    {
        self.registers.as_slice()
    }

    pub(crate) fn globals(&self) -> &[u64]
        ensures { result.now ≡ self.now.globals }
    {
        self.globals.as_slice()
    }

    pub(crate) fn turn(&self) -> u64
        ensures { result ≡ self.now.turn }
    {
        self.turn
    }

    pub(crate) fn held(&self) -> u64
        ensures { result ≡ self.now.held }
    {
        self.held
    }

    pub(crate) fn fresh(&self) -> u64
        ensures { result ≡ self.now.fresh }
    {
        self.fresh
    }

    /// The phase, without the count of the markers that are in.
    pub(crate) fn phase(&self) -> u64
        ensures { result ≡ phase_of self.now }
    {
        phase_bits(self.phase)
    }

    /// Whether the phase is this one, whatever markers are in.
    pub(crate) fn is_at(&self, phase: Phase) -> bool
        ensures { result ≡ (phase_of self.now == phase_number phase) }
    {
        phase.is_in(self.phase)
    }

    /// A page's quarantine word.
    pub(crate) fn quarantine(&self, page: u64) -> u64
        ensures { result ≡ quarantine_word (slice_index self.now.freed page) (slice_index self.now.snapshot page) }
    {
        let halves = QuarantineWord {
            freed: self.freed(page) as u64,
            snapshot: self.snapshot(page) as u64,
        };
        halves.word()
    }

    /// The word of that name.
    fn named(&self, name: Word) -> u64
        ensures { result ≡ named_word self.now name }
    {
        match name {
            Word::Phase => self.phase,
            Word::Gate(caller) => self.gate(caller),
            Word::Reg { caller, register } => {
                number_at(&self.registers, 8 * caller as u128 + register as u128)
            }
            Word::Global(global) => number_at(&self.globals, global as u128),
            Word::Head(page) => self.page(page as u128).header,
            Word::Used(page) => self.page(page as u128).used,
            Word::Quar(page) => self.quarantine(page),
            Word::Mark(page) => self.mark(page),
            Word::Black(page) => self.black(page),
            Word::Dirty(page) => self.dirty(page),
            Word::Heap(word) => self.heap(word as u128),
            Word::Held => self.held,
            Word::Fresh => self.fresh,
            Word::Cycles => self.cycles,
            Word::Released => self.released,
            Word::Full => self.full,
        }
    }

    pub(crate) fn word(&self, name: TableWord) -> u64
        ensures { result ≡ word_in self.now name }
    {
        match name {
            TableWord::Turn => self.turn,
            TableWord::Named(name) => self.named(name),
        }
    }

    fn set_page(&mut self, page: u64, value: Page)
        ensures { self.new ≡ record self.old { pages = slice_set self.old.pages page value } }
    {
        if let Some(slot) = self.pages.get_mut(page as usize) {
            *slot = value;
        }
    }

    fn set_quarantine(&mut self, page: u64, value: u64)
        ensures { self.new ≡ with_named self.old (word.Quar page) value }
    {
        let halves = QuarantineWord::of(value);
        if let Some(slot) = self.freed.get_mut(page as usize) {
            *slot = halves.freed as u32;
        }
        if let Some(slot) = self.snapshot.get_mut(page as usize) {
            *slot = halves.snapshot as u32;
        }
    }

    fn set_named(&mut self, name: Word, value: u64)
        ensures { self.new ≡ with_named self.old name value }
    {
        match name {
            Word::Phase => self.phase = value,
            Word::Gate(caller) => set_number(&mut self.gates, caller as u128, value),
            Word::Reg { caller, register } => {
                let place = 8 * caller as u128 + register as u128;
                set_number(&mut self.registers, place, value);
            }
            Word::Global(global) => set_number(&mut self.globals, global as u128, value),
            Word::Head(page) => {
                let used = self.page(page as u128).used;
                self.set_page(
                    page,
                    Page {
                        header: value,
                        used,
                    },
                );
            }
            Word::Used(page) => {
                let header = self.page(page as u128).header;
                self.set_page(
                    page,
                    Page {
                        header,
                        used: value,
                    },
                );
            }
            Word::Quar(page) => self.set_quarantine(page, value),
            Word::Mark(page) => set_number(&mut self.marks, page as u128, value),
            Word::Black(page) => set_number(&mut self.blacks, page as u128, value),
            Word::Dirty(page) => set_number(&mut self.dirty, page as u128, value),
            Word::Heap(word) => set_number(&mut self.heap, word as u128, value),
            Word::Held => self.held = value,
            Word::Fresh => self.fresh = value,
            Word::Cycles => self.cycles = value,
            Word::Released => self.released = value,
            Word::Full => self.full = value,
        }
    }

    fn set_word(&mut self, name: TableWord, value: u64)
        ensures { self.new ≡ with_word_in self.old name value }
    {
        match name {
            TableWord::Turn => self.turn = value,
            TableWord::Named(name) => self.set_named(name, value),
        }
    }

    /// Performs the access to the word of that name.
    pub(crate) fn access(&mut self, name: TableWord, access: Access)
        ensures { self.new ≡ accessed self.old name access }
    {
        let found = self.word(name);
        match access {
            Access::Load => {}
            Access::Store(value) => self.set_word(name, value),
            Access::Exchange { old, new } => {
                self.set_word(name, if found == old { new } else { found });
            }
            Access::Or(bits) => self.set_word(name, found | bits),
            Access::Add(n) => self.set_word(name, found.wrapping_add(n)),
            Access::Sub(n) => self.set_word(name, found.wrapping_sub(n)),
        }
    }
}
