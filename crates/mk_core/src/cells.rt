//! Cells and runs as the words show them.
ghost use Rattle.std.specs.Prelude.{◌≡◌, ◌≢◌, ℕ, ◌+◌, ◌-◌, ◌*◌, ◌^◌, ◌<◌, ◌≤◌, ◌==◌, true, IfSome, IfNone};
ghost use Rattle.std.specs.Prelude.{slice_index};
ghost use Rattle.mk_core.specs.Words.{header_at, used_at, bit_for, has_bit, without, all_below};
ghost use Rattle.mk_core.specs.Cells.{cells_under, words_under, run_headed, heads_run, is_leaf_header, has_no_pointers};
ghost use Rattle.mk_core.specs.Cells.{head_page, cell_bits, first_word, cell_words, pointed_cell, is_used, is_freed};
ghost use Rattle.mk_core.specs.Cells.{is_marked, points_well, word_points_well, words_point_well, words_are_zero};
ghost use Rattle.mk_core.specs.Cells.{left_unmarked, is_left_unmarked, are_left_unmarked, none_is_left_unmarked};
ghost use Rattle.mk_core.specs.Cells.{is_released_cell, is_in_run, words_scanned};
ghost use Rattle.mk_geom.specs.Addresses.{header_of, address_of};

use crate::bounded::all_below;
use crate::table::Table;
use crate::{Core, Phase, RunPages};
use mk_geom::{
    Cell, HEAP_START, Header, PAGE_WORDS, WORD_BYTES, cells, class_words, decode, head_page_under,
    is_unmapped, lookup, page_at,
};

/// The bit of a word that stands for a cell.
pub fn bit(index: u64) -> u64
    requires { index < 64 }
    ensures { result ≡ 2 ^ index }
{
    1 << index
}

/// The place of the lowest bit that is 1.
pub fn lowest_bit(word: u64) -> u64
    requires { word ≢ 0 }
    ensures within { result < 64 }
    ensures one { has_bit word result ≡ true }
{
    u64::from(word.trailing_zeros())
}

/// The bit of a word that stands for a cell; none if a word has no bit for it.
pub(crate) fn word_bit(index: u64) -> Option<u64>
    ensures some { IfSome result (λ bit. bit ≡ 2 ^ index) }
    ensures none { IfNone result (64 ≤ index) }
{
    (index < 64).then(|| 1 << index)
}

/// The bit of a word that stands for a cell; 0 if a word has no bit for it.
pub fn bit_for(index: u64) -> u64
    ensures { result ≡ bit_for index }
{
    word_bit(index).unwrap_or(0)
}

/// Whether the value is the one bit that stands for a cell.
#[tactic(auto, using(crate::proofs::Bits::bit_above))]
pub(crate) fn is_bit(index: u64, value: u64) -> bool
    ensures { result ≡ (value == 2 ^ index) }
{
    match word_bit(index) {
        Some(bit) => value == bit,
        None => false,
    }
}

/// Whether the word has the bit.
#[tactic(auto, using(crate::proofs::Bits::has_bit_past))]
pub fn has_bit(word: u64, index: u64) -> bool
    ensures { result ≡ has_bit word index }
{
    index < 64 && has_cell(word, index)
}

/// Whether a word of a page has the bit of a cell.
#[inline(always)]
pub fn has_cell(word: u64, index: u64) -> bool
    requires index { index < 64 }
    ensures { result ≡ has_bit word index }
{
    (word >> index) & 1 == 1
}

/// The bits of a word that another hasn't.
pub fn without(word: u64, other: u64) -> u64
    ensures { result ≡ without word other }
{
    word - (word & other)
}

/// How many cells a page of this header word has. A run is one cell, at its head page.
pub fn cells_under(header: u64) -> u64
    ensures exact { result ≡ cells_under (header_of header) }
    ensures few { result ≤ 32 }
{
    match decode(header) {
        Some(Header::Block(class) | Header::LeafBlock(class)) => cells(class),
        Some(Header::Run { .. } | Header::LeafRun { .. }) => 1,
        _ => 0,
    }
}

/// How many words each of these cells has.
pub fn words_under(header: u64) -> u64
    ensures exact { result ≡ words_under (header_of header) }
    ensures few { result ≤ 4096 }
{
    match decode(header) {
        Some(Header::Block(class) | Header::LeafBlock(class)) => class_words(class),
        Some(Header::Run { pages, .. } | Header::LeafRun { pages }) => PAGE_WORDS * pages,
        _ => 0,
    }
}

/// The run that has its head at this page, by the page's header word.
pub(crate) fn run_headed(header: u64, page: u64) -> Option<RunPages>
    ensures { result ≡ run_headed (header_of header) page }
{
    match decode(header) {
        Some(Header::Run { pages, .. } | Header::LeafRun { pages }) => Some(RunPages {
            page,
            count: pages,
        }),
        _ => None,
    }
}

pub(crate) fn heads_run(header: u64) -> bool
    ensures { result ≡ heads_run (header_of header) }
{
    matches!(
        decode(header),
        Some(Header::Run { .. } | Header::LeafRun { .. })
    )
}

/// Whether the words of a cell under the header word aren't scanned, as it is with a leaf object and with an unmapped
/// run.
pub fn has_no_pointers(header: u64) -> bool
    ensures { result ≡ has_no_pointers (header_of header) }
{
    matches!(
        decode(header),
        Some(Header::LeafBlock(_) | Header::LeafRun { .. })
    ) || is_unmapped(header)
}

/// How many words of a cell under the header word are scanned.
pub fn words_scanned(header: u64) -> u64
    ensures exact { result ≡ words_scanned (header_of header) }
    ensures few { result ≤ 4096 }
{
    if has_no_pointers(header) {
        0
    } else {
        words_under(header)
    }
}

impl RunPages {
    /// Whether the heap word is one of the run's.
    pub(crate) fn has_word(self, word: u64) -> bool
        ensures { result ≡ is_in_run self word }
    {
        let page = word / PAGE_WORDS;
        self.page <= page && page - self.page < self.count
    }
}

impl Table {
    pub(crate) fn header(&self, page: u64) -> u64
        ensures { result ≡ header_at self.now page }
    {
        self.page(page as u128).header
    }

    pub(crate) fn used(&self, page: u64) -> u64
        ensures { result ≡ used_at self.now page }
    {
        self.page(page as u128).used
    }

    /// The head page of a page's run. A page of no run is its own head page.
    pub(crate) fn head_page(&self, page: u64) -> u64
        ensures { result ≡ head_page self.now page }
    {
        head_page_under(self.header(page), page)
    }

    /// The bits that stand for the cells of a page, all of them.
    pub(crate) fn cell_bits(&self, page: u64) -> u64
        ensures { result ≡ cell_bits self.now page }
    {
        (1 << cells_under(self.header(page))) - 1
    }

    /// The number of the first heap word of a cell.
    pub(crate) fn first_word(&self, cell: Cell) -> u128
        ensures { result ≡ first_word self.now cell }
    {
        let words = words_under(self.header(cell.page));
        PAGE_WORDS as u128 * cell.page as u128 + cell.index as u128 * words as u128
    }

    /// How many words a cell has.
    pub(crate) fn cell_words(&self, cell: Cell) -> u64
        ensures exact { result ≡ cell_words self.now cell }
        ensures few { result ≤ 4096 }
    {
        words_under(self.header(cell.page))
    }

    /// What a value points into, in a heap of this many pages.
    #[tactic(auto, unfolding(crate::specs::Cells::pointed_cell))]
    pub(crate) fn pointed_cell(&self, pages: u64, value: u64) -> Option<Cell>
        ensures { result ≡ pointed_cell pages self.now.pages value }
    {
        lookup(pages, self.header(page_at(value)), value)
    }

    pub(crate) fn is_used(&self, cell: Cell) -> bool
        ensures { result ≡ is_used self.now cell }
    {
        has_bit(self.used(cell.page), cell.index)
    }

    pub(crate) fn is_freed(&self, cell: Cell) -> bool
        ensures { result ≡ is_freed self.now cell }
    {
        has_bit(self.freed(cell.page) as u64, cell.index)
    }

    pub(crate) fn is_marked(&self, cell: Cell) -> bool
        ensures { result ≡ is_marked self.now cell }
    {
        has_bit(self.mark(cell.page), cell.index)
    }

    /// Whether the value points into nothing, or into a marked cell.
    pub(crate) fn points_well(&self, pages: u64, value: u64) -> bool
        ensures { result ≡ points_well pages self.now value }
    {
        match self.pointed_cell(pages, value) {
            Some(cell) => self.is_marked(cell),
            None => true,
        }
    }

    /// Whether the value of a heap word points well.
    fn word_points_well(&self, pages: u64, word: u128) -> bool
        ensures { result ≡ word_points_well pages self.now word }
    {
        self.points_well(pages, self.heap(word))
    }

    /// Whether each word of the cell points well.
    pub(crate) fn words_point_well(&self, pages: u64, cell: Cell) -> bool
        ensures { result ≡ words_point_well pages self.now cell }
    {
        let first = self.first_word(cell);
        all_below(self.cell_words(cell), |i| {
            self.word_points_well(pages, first + i as u128)
        })
    }

    /// Whether this many words from the first on are 0.
    pub(crate) fn words_are_zero(&self, first: u128, count: u64) -> bool
        requires { first < 2 ^ 100 }
        ensures { result ≡ words_are_zero self.now first count }
    {
        all_below(count, |i| self.heap(first + i as u128) == 0)
    }

    /// The cells of a page that are in the snapshot and have no mark, as bits.
    fn left_unmarked(&self, page: u64) -> u64
        ensures { result ≡ left_unmarked self.now page }
    {
        without(self.snapshot(page) as u64, self.mark(page))
    }

    /// Whether these cells of a page, as bits, are all in the snapshot and have no mark.
    pub(crate) fn are_left_unmarked(&self, page: u64, bits: u64) -> bool
        ensures { result ≡ are_left_unmarked self.now page bits }
    {
        without(bits, self.left_unmarked(page)) == 0
    }

    /// Whether no cell of the page is in the snapshot and has no mark.
    pub(crate) fn none_is_left_unmarked(&self, page: u64) -> bool
        ensures { result ≡ none_is_left_unmarked self.now page }
    {
        self.left_unmarked(page) == 0
    }

    /// Whether the cell is released: the phase is releasing, and the cell is in the snapshot and has no
    /// mark.
    pub(crate) fn is_released_cell(&self, cell: Cell) -> bool
        ensures { result ≡ is_released_cell self.now cell }
    {
        self.is_at(Phase::Releasing) && has_bit(self.left_unmarked(cell.page), cell.index)
    }
}

impl Core {
    /// The cell or run that has a heap word.
    #[tactic(auto, unfolding(crate::specs::Cells::pointed_cell))]
    pub(crate) fn cell_of_word(&self, word: u64) -> Option<Cell>
        ensures { result ≡ pointed_cell self.now.config.pages self.now.now.words.pages (address_of word) }
    {
        self.is_within_limits();
        let pages = self.config.pages;
        if word >= PAGE_WORDS * pages {
            return None;
        }
        self.table
            .pointed_cell(pages, HEAP_START + WORD_BYTES * word)
    }
}
