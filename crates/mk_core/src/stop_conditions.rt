//! What the turn's holder may do to marks and phases: the own condition of each kind of step that marks,
//! begins, closes or ends a cycle.
ghost use Rattle.std.specs.{Prelude.{◌≡◌, ◌<◌, not}, List.list_all};
ghost use Rattle.mk_core.specs.{Words.all_below, Cells.points_well, MarkingConditions.{is_attending, none_attends}};
ghost use Rattle.mk_core.specs.MarkingConditions.{is_bit_of, marks_by_hand, marks_place, may_mark, has_clean_page};
ghost use Rattle.mk_core.specs.MarkingConditions.{may_begin, has_closed_page, roots_point_well, may_close};
ghost use Rattle.mk_core.specs.MarkingConditions.{has_settled_page, may_end, may_undirty, may_unblack, may_turn_black};
ghost use Rattle.mk_core.specs.{MarkingConditions.{blackens, may_black}, TurnConditions.place_now};
ghost use Rattle.mk_core.specs.NewPlaces.{object_made};

use crate::bounded::all_below;
use crate::cells::{cells_under, has_no_pointers, is_bit, without};
use crate::placing::bits_made;
use crate::table::Table;
use crate::{Core, Flight, Marker, Phase, Presence};
use mk_geom::Cell;

pub(crate) fn is_attending(presence: Presence) -> bool
    ensures { result ≡ is_attending presence }
{
    matches!(presence, Presence::Attending)
}

/// Whether no marker attends.
fn none_attends(markers: &[Marker]) -> bool
    ensures { result ≡ none_attends markers.now }
{
    markers.iter().all(|marker| !is_attending(marker.presence))
}

/// Whether the value is the one bit of the cell, at its page.
fn is_bit_of(cell: Option<Cell>, page: u64, value: u64) -> bool
    ensures { result ≡ is_bit_of cell page value }
{
    cell.is_some_and(|cell| page == cell.page && is_bit(cell.index, value))
}

impl Table {
    /// Whether the page has no marks and no black bits, and its freed cells are the snapshot.
    fn has_clean_page(&self, page: u64) -> bool
        ensures { result ≡ has_clean_page self.now page }
    {
        self.mark(page) == 0 && self.black(page) == 0 && self.freed(page) == self.snapshot(page)
    }

    /// Whether each marked cell of the page is black, and the page isn't dirty.
    fn has_closed_page(&self, page: u64) -> bool
        ensures { result ≡ has_closed_page self.now page }
    {
        without(self.mark(page) & self.cell_bits(page), self.black(page)) == 0
            && self.dirty(page) == 0
    }

    /// Whether no cell of the page is released, and the page has a used cell if it has a header.
    fn has_settled_page(&self, page: u64) -> bool
        ensures { result ≡ has_settled_page self.now page }
    {
        self.none_is_left_unmarked(page)
            && (self.header(page) == 0 || self.used(self.head_page(page)) != 0)
    }

    /// Whether each of the values points well.
    fn all_point_well(&self, pages: u64, values: &[u64]) -> bool
        ensures { result ≡ list_all (points_well pages self.now) values.now }
    {
        values.iter().all(|value| self.points_well(pages, *value))
    }

    fn roots_point_well(&self, pages: u64) -> bool
        ensures { result ≡ roots_point_well pages self.now }
    {
        self.all_point_well(pages, self.registers()) && self.all_point_well(pages, self.globals())
    }

    /// Whether the page has such a cell, it is marked, and its words point well or aren't scanned.
    #[tactic(auto, unfolding(crate::specs::MarkingConditions::may_turn_black))]
    fn may_turn_black(&self, pages: u64, cell: Cell) -> bool
        ensures { result ≡ may_turn_black pages self.now cell }
    {
        let header = self.header(cell.page);
        cell.index < cells_under(header)
            && self.is_marked(cell)
            && (has_no_pointers(header) || self.words_point_well(pages, cell))
    }

    fn blackens(&self, pages: u64, page: u64, value: u64, index: u64) -> bool
        ensures { result ≡ blackens pages self.now page value index }
    {
        is_bit(index, value) && self.may_turn_black(pages, Cell { page, index })
    }
}

impl Core {
    pub(crate) fn none_attends(&self) -> bool
        ensures { result ≡ none_attends self.now.now.seats.markers }
    {
        none_attends(&self.markers)
    }

    /// Whether the value is the bit of the cell into which the hand points.
    fn marks_by_hand(&self, page: u64, value: u64) -> bool
        ensures { result ≡ marks_by_hand self.now.config.pages self.now.now.words self.now.now.seats.holding.hand page
            value }
    {
        self.holding.hand.is_some_and(|hand| {
            let cell = self.table.pointed_cell(self.config.pages, hand.value);
            is_bit_of(cell, page, value)
        })
    }

    /// Whether the value is the bits of the cells that the first page of the place of a `New` gets, and the
    /// page has no header yet.
    pub(crate) fn marks_place(&self, flight: Flight, page: u64, value: u64) -> bool
        ensures { result ≡ marks_place self.now.now.words (object_made self.now.config flight.op)
            (place_now self.now.config self.now.now flight) page value }
    {
        let Some(place) = self.place_now(flight) else {
            return false;
        };
        self.table.is_at(Phase::Marking)
            && page == place.page
            && self.table.header(page) == 0
            && value == bits_made(self.object_made(flight.op))
    }

    pub(crate) fn may_mark(&self, flight: Flight, page: u64, value: u64) -> bool
        ensures { result ≡ may_mark self.now.config self.now.now flight page value }
    {
        self.marks_by_hand(page, value) || self.marks_place(flight, page, value)
    }

    pub(crate) fn may_begin(&self) -> bool
        ensures { result ≡ may_begin self.now.config.pages self.now.now.words }
    {
        all_below(self.config.pages, |page| self.table.has_clean_page(page))
            && self.table.fresh() == 0
    }

    pub(crate) fn may_close(&self) -> bool
        ensures { result ≡ may_close self.now.config self.now.now }
    {
        let pages = self.config.pages;
        self.none_attends()
            && all_below(pages, |page| self.table.has_closed_page(page))
            && self.table.roots_point_well(pages)
    }

    pub(crate) fn may_end(&self) -> bool
        ensures { result ≡ may_end self.now.config.pages self.now.now.words }
    {
        all_below(self.config.pages, |page| self.table.has_settled_page(page))
    }

    pub(crate) fn may_undirty(&self, page: u64) -> bool
        ensures { result ≡ may_undirty self.now.now page }
    {
        !self.table.is_at(Phase::Wanted)
            || self.none_attends()
                && self.table.black(page) == 0
                && self.table.black(self.table.head_page(page)) == 0
    }

    pub(crate) fn may_unblack(&self) -> bool
        ensures { result ≡ may_unblack self.now.now }
    {
        !self.table.is_at(Phase::Wanted) || self.none_attends()
    }

    pub(crate) fn may_black(&self, page: u64, value: u64) -> bool
        ensures { result ≡ may_black self.now.config self.now.now page value }
    {
        let pages = self.config.pages;
        self.none_attends()
            && !all_below(32, |index| !self.table.blackens(pages, page, value, index))
    }
}
