//! The place of a `New` and what its pages become, and what a `Free` frees.
ghost use Rattle.std.specs.Prelude.{◌≡◌, ◌+◌, ◌*◌, ◌^◌, ◌<◌, ◌==◌};
ghost use Rattle.mk_geom.specs.{Addresses.word_of, Storages.{block_header, run_header}};
ghost use Rattle.mk_core.specs.{Words.all_below, Cells.words_are_zero, NewPlaces.{object_made, place_on_pages}};
ghost use Rattle.mk_core.specs.NewPlaces.{class_made, is_small_object, pages_made, header_made, bits_made, base_made};
ghost use Rattle.mk_core.specs.NewPlaces.{stands, is_next_header, place_stands, unmapped_header, is_run_unmapped};
ghost use Rattle.mk_core.specs.NewPlaces.{is_run_gone, is_undecided_new, is_undecided_free, target};
ghost use Rattle.mk_core.specs.{NewPlaces.header_wanted, TurnConditions.{place_now, frees, cell_freed}};

use crate::bounded::all_below;
use crate::cells::word_bit;
use crate::seats::Object;
use crate::table::Table;
use crate::{Core, Flight, Phase, Placing, RunPages, Stage};
use mk_books::first_fit;
use mk_geom::{
    Cell, Header, PAGE_WORDS, Place, SMALL_WORDS, cells, class_of, class_words, encode, run_pages,
};
use mk_never::Op;

/// The header words that neighbouring pages are to get: those of a new object, or those of an unmapped run
/// of this many pages.
#[derive(Clone, Copy)]
pub(crate) enum PageHeaders {
    Made(Object),
    Unmapped(u64),
}

impl PageHeaders {
    /// The header word of the page that is so many pages after the first.
    fn word(self, distance: u64) -> u128
        ensures { result ≡ header_wanted self distance }
    {
        match self {
            PageHeaders::Made(object) => header_made(object, distance),
            PageHeaders::Unmapped(count) => unmapped_header(count, distance),
        }
    }
}

pub(crate) fn is_small(object: Object) -> bool
    ensures { result ≡ is_small_object object }
{
    object.words <= SMALL_WORDS
}

pub(crate) fn class_made(object: Object) -> u64
    ensures exact { result ≡ class_made object }
    ensures known { result < 8 }
{
    class_of(object.words).unwrap_or(0)
}

/// How many pages an object's cell or run has from its place's page on.
pub(crate) fn pages_made(object: Object) -> u64
    ensures { result ≡ pages_made object }
{
    if is_small(object) {
        1
    } else {
        run_pages(object.words)
    }
}

/// The header word of a page of a run, as a number that may be too great for a word: the run may have more pages than a
/// header can say.
fn run_word(count: u64, mapped: bool, leaf: bool, distance: u64) -> u128
    ensures { result ≡ word_of (run_header count mapped leaf distance) }
{
    let (parameter, shortest) = match distance {
        0 if leaf && mapped => (count, Header::LeafRun { pages: 1 }),
        0 => (count, Header::Run { pages: 1, mapped }),
        _ => (
            distance,
            Header::Later {
                distance: 1,
                mapped,
            },
        ),
    };
    16 * parameter as u128 + encode(shortest) as u128 % 16
}

/// The header word of the page that is so many pages after the object's first.
pub(crate) fn header_made(object: Object, distance: u64) -> u128
    ensures { result ≡ header_made object distance }
{
    if is_small(object) {
        let class = class_made(object);
        let header = if object.leaf {
            Header::LeafBlock(class)
        } else {
            Header::Block(class)
        };
        encode(header) as u128
    } else {
        run_word(run_pages(object.words), true, object.leaf, distance)
    }
}

/// The bits of all cells that the object's first page gets with its header.
pub(crate) fn bits_made(object: Object) -> u64
    ensures { result ≡ bits_made object }
{
    if is_small(object) {
        (1 << cells(class_made(object))) - 1
    } else {
        1
    }
}

/// The number of the object's first heap word.
pub(crate) fn base_made(object: Object, place: Place) -> u128
    ensures { result ≡ base_made object place }
{
    let index = if is_small(object) {
        place.index as u128 * class_words(class_made(object)) as u128
    } else {
        0
    };
    PAGE_WORDS as u128 * place.page as u128 + index
}

/// The header word of the page that is so many pages after the first of an unmapped run.
pub(crate) fn unmapped_header(count: u64, distance: u64) -> u128
    ensures { result ≡ unmapped_header count distance }
{
    run_word(count, false, false, distance)
}

/// Whether the call is a `New` before the step that decides it.
pub(crate) fn is_undecided_new(flight: Flight) -> bool
    ensures { result ≡ is_undecided_new flight }
{
    matches!((flight.stage, flight.op), (Stage::Turn, Op::New { .. }))
}

/// Whether the call is a `Free` whose register is loaded, before the step that decides it.
pub(crate) fn is_undecided_free(flight: Flight) -> bool
    ensures { result ≡ is_undecided_free flight }
{
    matches!((flight.stage, flight.op), (Stage::Turn, Op::Free { .. }))
}

/// Whether the value is the word and the bit of the index, added.
#[tactic(auto, using(crate::proofs::Bits::sum_past))]
pub(crate) fn adds_bit(word: u64, index: u64, value: u64) -> bool
    ensures { result ≡ (value == word + 2 ^ index) }
{
    // If no word has the bit, the sum is too great for a value.
    word_bit(index).is_some_and(|bit| value as u128 == word as u128 + bit as u128)
}

impl Table {
    /// Whether this many pages from the first on have the header words that are wanted.
    fn headers_stand(&self, first: u64, wanted: PageHeaders, count: u64) -> bool
        ensures { result ≡ all_below count (stands self.now first (header_wanted wanted)) }
    {
        all_below(count, |distance| {
            let page = first as u128 + distance as u128;
            self.page(page).header as u128 == wanted.word(distance)
        })
    }

    /// Whether the page is the first of this many without the header word that is wanted there, and the value is that
    /// word.
    pub(crate) fn is_next_header(
        &self,
        first: u64,
        wanted: PageHeaders,
        count: u64,
        page: u64,
        value: u64,
    ) -> bool
        ensures { result ≡ is_next_header self.now first count (header_wanted wanted) page value }
    {
        let Some(distance) = page.checked_sub(first) else {
            return false;
        };
        let header = wanted.word(distance);
        distance < count
            && self.header(page) as u128 != header
            && self.headers_stand(first, wanted, distance)
            && value as u128 == header
    }

    /// Whether the pages of the place have the header words of the object.
    pub(crate) fn place_stands(&self, object: Object, place: Place) -> bool
        ensures { result ≡ place_stands self.now object place }
    {
        self.headers_stand(place.page, PageHeaders::Made(object), pages_made(object))
    }

    pub(crate) fn is_run_unmapped(&self, run: RunPages) -> bool
        ensures { result ≡ is_run_unmapped self.now run }
    {
        self.headers_stand(run.page, PageHeaders::Unmapped(run.count), run.count)
    }

    /// Whether all words of the run are 0.
    fn is_run_wiped(&self, run: RunPages) -> bool
        ensures { result ≡ words_are_zero self.now (64 * run.page) (64 * run.count) }
    {
        all_below(run.count, |page| {
            let first = PAGE_WORDS as u128 * (run.page as u128 + page as u128);
            self.words_are_zero(first, PAGE_WORDS)
        })
    }

    /// Whether the value is the page's quarantine word with the freed bit of the cell, which wasn't set.
    pub(crate) fn frees(&self, cell: Option<Cell>, page: u64, value: u64) -> bool
        ensures { result ≡ frees self.now cell page value }
    {
        cell.is_some_and(|cell| {
            page == cell.page
                && !self.is_freed(cell)
                && adds_bit(self.quarantine(page), cell.index, value)
        })
    }
}

impl Core {
    /// The object that a `New` creates.
    pub(crate) fn object_made(&self, op: Op) -> Object
        ensures { result ≡ object_made self.now.config op }
    {
        match op {
            Op::New { ty, .. } if ty < self.config.types.count() => Object {
                words: self.config.types.kinds(ty).len() as u64,
                leaf: self.config.types.is_leaf(ty),
            },
            _ => Object {
                words: 0,
                leaf: true,
            },
        }
    }

    /// The place of the object of a `New` by first fit.
    pub(crate) fn first_fit(&self, op: Op) -> Option<Place>
        ensures { result ≡ place_on_pages self.now.config.resident self.now.now.words.pages
            (object_made self.now.config op) }
    {
        let object = self.object_made(op);
        first_fit(
            self.table.pages(),
            self.config.resident,
            object.words,
            object.leaf,
        )
    }

    /// The place of an undecided `New`.
    pub(crate) fn place_now(&self, flight: Flight) -> Option<Place>
        ensures { result ≡ place_now self.now.config self.now.now flight }
    {
        if !is_undecided_new(flight) {
            return None;
        }
        match self.holding.placing {
            Placing::Unplaced => self.first_fit(flight.op),
            Placing::Chosen(place) | Placing::Used(place) => Some(place),
            Placing::Granted => None,
        }
    }

    /// The cell that an undecided `Free` frees: what its register points into.
    pub(crate) fn target(&self, flight: Flight) -> Option<Cell>
        ensures { result ≡ target self.now.config.pages self.now.now.words flight }
    {
        if is_undecided_free(flight) {
            self.table.pointed_cell(self.config.pages, flight.p)
        } else {
            None
        }
    }

    /// The cell that a store of this quarantine word frees.
    pub(crate) fn cell_freed(&self, flight: Flight, page: u64, value: u64) -> Option<Cell>
        ensures { result ≡ cell_freed self.now.config.pages self.now.now.words flight page value }
    {
        let target = self.target(flight);
        if !self.table.is_at(Phase::Releasing) && self.table.frees(target, page, value) {
            target
        } else {
            None
        }
    }

    /// Whether the run that the call freed, if it freed one, is unmapped and wiped.
    pub(crate) fn is_run_gone(&self) -> bool
        ensures { result ≡ is_run_gone self.now.now.words self.now.now.seats.holding.freed }
    {
        match self.holding.freed {
            Some(run) => self.table.is_run_unmapped(run) && self.table.is_run_wiped(run),
            None => true,
        }
    }
}
