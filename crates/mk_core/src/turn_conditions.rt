//! What the turn's holder may do to objects: the own condition of each kind of step that changes them.
ghost use Rattle.std.specs.Prelude.{◌≡◌, ◌&&◌, ◌<◌};
ghost use Rattle.mk_geom.specs.Addresses.{address_of};
ghost use Rattle.mk_core.specs.Cells.{pointed_cell, first_word, cell_words, words_are_zero};
ghost use Rattle.mk_core.specs.NewPlaces.{object_made, pages_made, header_made, is_next_header};
ghost use Rattle.mk_core.specs.TurnConditions.{is_marked_first, carves, unmaps, empties, may_head, takes_cell};
ghost use Rattle.mk_core.specs.TurnConditions.{is_used_once, are_wiped, gives_back, may_use, takes_snapshot, drops};
ghost use Rattle.mk_core.specs.TurnConditions.{may_quarantine, is_decided, may_give, may_answer_full, is_in_gone_run};
ghost use Rattle.mk_core.specs.TurnConditions.{may_wipe, place_now};

use crate::bounded::all_below;
use crate::cells::{has_bit, without};
use crate::placing::{PageHeaders, adds_bit, bits_made, pages_made};
use crate::seats::Object;
use crate::table::Table;
use crate::{Core, Flight, OwnCycle, Phase, Placing, Stage};
use mk_books::{QuarantineWord, held_by_pages};
use mk_geom::{Cell, Place};

/// Whether the call of the turn's holder is decided. The host makes no calls, and counts as decided.
fn is_decided(stage: Stage) -> bool
    ensures { result ≡ is_decided stage }
{
    stage != Stage::Turn
}

fn is_used_once(placing: Placing) -> bool
    ensures { result ≡ is_used_once placing }
{
    matches!(placing, Placing::Used(_))
}

impl Table {
    /// Whether the cells that a header makes are marked already, if the phase is marking.
    fn is_marked_first(&self, object: Object, place: Place) -> bool
        ensures { result ≡ is_marked_first self.now object place }
    {
        !self.is_at(Phase::Marking) || without(bits_made(object), self.mark(place.page)) == 0
    }

    /// Whether the page is the next of the place to get its header.
    fn carves(&self, object: Object, place: Place, page: u64, value: u64) -> bool
        ensures { result ≡ (is_next_header self.now place.page (pages_made object) (header_made object) page value
            && is_marked_first self.now object place) }
    {
        let wanted = PageHeaders::Made(object);
        self.is_next_header(place.page, wanted, pages_made(object), page, value)
            && self.is_marked_first(object, place)
    }

    /// Whether nothing is on the page, and the value says so. For a later page of a run the words of its head page are
    /// asked.
    fn empties(&self, page: u64, value: u64) -> bool
        ensures { result ≡ empties self.now page value }
    {
        let head = self.head_page(page);
        value == 0 && self.used(head) == 0 && self.freed(head) == 0 && self.snapshot(head) == 0
    }

    /// Whether all words of the cell are 0.
    fn is_wiped(&self, cell: Cell) -> bool
        ensures { result ≡ words_are_zero self.now (first_word self.now cell) (cell_words self.now cell) }
    {
        self.words_are_zero(self.first_word(cell), self.cell_words(cell))
    }

    /// Whether the words of each of these cells of a page are 0.
    fn are_wiped(&self, page: u64, bits: u64) -> bool
        ensures { result ≡ are_wiped self.now page bits }
    {
        all_below(32, |index| {
            !has_bit(bits, index) || self.is_wiped(Cell { page, index })
        })
    }

    /// Whether these used bits are the page's without those of released cells whose words are 0.
    fn gives_back(&self, page: u64, value: u64) -> bool
        ensures { result ≡ gives_back self.now page value }
    {
        let used = self.used(page);
        let gone = used.saturating_sub(value);
        value & used == value && self.are_left_unmarked(page, gone) && self.are_wiped(page, gone)
    }

    /// Whether the freed cells become the snapshot.
    fn takes_snapshot(&self, page: u64, value: u64) -> bool
        ensures { result ≡ takes_snapshot self.now page value }
    {
        let freed = self.freed(page) as u64;
        self.is_at(Phase::None) && value == freed + (freed << 32)
    }

    /// Whether released cells that aren't used lose both bits.
    fn drops(&self, page: u64, freed: u64, snapshot: u64) -> bool
        ensures { result ≡ drops self.now page freed snapshot }
    {
        let before = self.snapshot(page) as u64;
        let gone = before.saturating_sub(snapshot);
        snapshot & before == snapshot
            && self.are_left_unmarked(page, gone)
            && self.used(page) & gone == 0
            && freed == without(self.freed(page) as u64, gone)
    }
}

impl Core {
    /// Whether a page of the place gets its header.
    fn carves(&self, flight: Flight, page: u64, value: u64) -> bool
        ensures { result ≡ carves self.now.now.words (object_made self.now.config flight.op)
            (place_now self.now.config self.now.now flight) page value }
    {
        let object = self.object_made(flight.op);
        self.place_now(flight)
            .is_some_and(|place| self.table.carves(object, place, page, value))
    }

    /// Whether a page of the run that the call freed is unmapped.
    fn unmaps(&self, page: u64, value: u64) -> bool
        ensures { result ≡ unmaps self.now.now.words self.now.now.seats.holding.freed page value }
    {
        self.holding.freed.is_some_and(|run| {
            let wanted = PageHeaders::Unmapped(run.count);
            self.table
                .is_next_header(run.page, wanted, run.count, page, value)
        })
    }

    pub(crate) fn may_head(&self, flight: Flight, page: u64, value: u64) -> bool
        ensures { result ≡ may_head self.now.config self.now.now flight page value }
    {
        if self.table.is_at(Phase::Releasing) {
            self.table.empties(page, value)
        } else {
            self.carves(flight, page, value) || self.unmaps(page, value)
        }
    }

    /// Whether the value takes the cell of the place, and all headers of the place are there.
    fn takes_cell(&self, flight: Flight, page: u64, value: u64) -> bool
        ensures { result ≡ takes_cell self.now.now.words (object_made self.now.config flight.op)
            (place_now self.now.config self.now.now flight) page value }
    {
        let used = self.table.used(page);
        let object = self.object_made(flight.op);
        self.place_now(flight).is_some_and(|place| {
            page == place.page
                && self.table.place_stands(object, place)
                && !has_bit(used, place.index)
                && adds_bit(used, place.index, value)
        })
    }

    pub(crate) fn may_use(&self, flight: Flight, page: u64, value: u64) -> bool
        ensures { result ≡ may_use self.now.config self.now.now flight page value }
    {
        if self.table.is_at(Phase::Releasing) {
            self.table.gives_back(page, value)
        } else {
            !is_used_once(self.holding.placing) && self.takes_cell(flight, page, value)
        }
    }

    pub(crate) fn may_quarantine(&self, flight: Flight, page: u64, value: u64) -> bool
        ensures { result ≡ may_quarantine self.now.config self.now.now flight page value }
    {
        if self.table.is_at(Phase::Releasing) {
            let halves = QuarantineWord::of(value);
            self.table.drops(page, halves.freed, halves.snapshot)
        } else {
            self.table.frees(self.target(flight), page, value)
                || self.table.takes_snapshot(page, value)
        }
    }

    pub(crate) fn may_give(&self, flight: Flight) -> bool
        ensures { result ≡ may_give self.now.now flight }
    {
        is_decided(flight.stage)
            && self.is_run_gone()
            && self.table.held() as u128 == held_by_pages(self.table.pages())
            && self.table.fresh() == self.fresh_words
    }

    /// Whether a cycle was begun and ended in this call, and nothing fits.
    pub(crate) fn may_answer_full(&self, flight: Flight) -> bool
        ensures { result ≡ may_answer_full self.now.config.resident self.now.now.words.pages
            (object_made self.now.config flight.op)
            self.now.now.seats.holding.placing self.now.now.seats.holding.cycle }
    {
        match (self.holding.placing, self.holding.cycle) {
            (Placing::Unplaced, OwnCycle::Ended) => self.first_fit(flight.op).is_none(),
            _ => false,
        }
    }

    /// Whether the word is one of the run whose pages this call unmapped.
    fn is_in_gone_run(&self, word: u64) -> bool
        ensures { result ≡ is_in_gone_run self.now.now.words self.now.now.seats.holding.freed word }
    {
        self.holding.freed.is_some_and(|run| run.has_word(word) && self.table.is_run_unmapped(run))
    }

    pub(crate) fn may_wipe(&self, word: u64) -> bool
        ensures { result ≡ may_wipe self.now.config self.now.now word }
    {
        self.cell_of_word(word)
            .is_some_and(|cell| self.table.is_released_cell(cell))
            || self.is_in_gone_run(word)
    }
}
