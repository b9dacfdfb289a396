//! What a step makes of the call in flight, of what the turn's holder has done, and of the count of fresh
//! words.
ghost use Rattle.std.specs.Prelude.{◌≡◌, if◌then◌else◌, IsTrue};
ghost use Rattle.mk_core.specs.{Calls.at_rest, Conditions.is_in_range, NewPlaces.{object_made, target}};
ghost use Rattle.mk_core.specs.{TurnConditions.{place_now, cell_freed}, MarkingConditions.marks_place};
ghost use Rattle.mk_core.specs.{Moments.{marker_of, is_phase}, Enabled.marker_may};
ghost use Rattle.mk_core.specs.Effects.{decided, begins_where_free, progress_probe, sees_double, progress_look};
ghost use Rattle.mk_core.specs.Effects.{progress_freed, progress, is_ungranted, is_mapped_cell, hand_of_cell};
ghost use Rattle.mk_core.specs.Effects.{is_in_stop, hand_given, chosen, taken, run_of_cell, cycle_ended};
ghost use Rattle.mk_core.specs.Effects.{holding_behind, marker_behind, words_freed, fresh_behind};

use crate::calls::{
    begun, onward, progress_cas, progress_getg, progress_read, progress_reg, refused, still,
};
use crate::cells::{has_no_pointers, heads_run, run_headed, words_under};
use crate::machine::{AT_REST, Core, NOTHING_DONE};
use crate::scans::marker_behind;
use crate::seats::Progress;
use crate::{
    Answer, Flight, Hand, Holding, Marker, OwnCycle, Phase, Placing, RunPages, Seat, Source, Stage,
    Step, Word,
};
use mk_geom::{Cell, Place, is_unmapped};
use mk_never::Op;

/// A call that is decided by this answer, and goes on up to its `give`.
fn decided(flight: Flight, answer: Answer) -> Progress
    ensures { result ≡ decided flight answer }
{
    Progress {
        flight: Flight {
            stage: Stage::Give,
            ..flight
        },
        answer: Some(answer),
    }
}

/// A call begins if its gate, or the turn, is found 0.
fn begun_where_free(flight: Flight, op: Op, found: u64) -> Progress
    ensures { result ≡ begins_where_free flight op found }
{
    if found == 0 {
        Progress {
            flight: begun(op),
            answer: None,
        }
    } else {
        still(flight)
    }
}

/// `probe`: an access to an unmapped run is refused.
fn progress_probe(flight: Flight, header: u64) -> Progress
    ensures { result ≡ progress_probe flight header }
{
    if is_unmapped(header) {
        refused(flight, Answer::Fault)
    } else {
        onward(flight, None)
    }
}

/// How far a place is after a step that serves the new object: the first such step fixes it.
fn chosen(placing: Placing, place: Option<Place>) -> Placing
    ensures { result ≡ chosen placing place }
{
    match (placing, place) {
        (Placing::Unplaced, Some(place)) => Placing::Chosen(place),
        _ => placing,
    }
}

fn taken(placing: Placing, place: Option<Place>) -> Placing
    ensures { result ≡ taken placing place }
{
    match place {
        Some(place) => Placing::Used(place),
        None => placing,
    }
}

/// Whether a `New` has taken the cell, and its object isn't granted yet.
fn is_ungranted(placing: Placing, cell: Cell) -> bool
    ensures { result ≡ is_ungranted placing cell }
{
    match placing {
        Placing::Used(place) => place.page == cell.page && place.index == cell.index,
        _ => false,
    }
}

fn cycle_ended(cycle: OwnCycle) -> OwnCycle
    ensures { result ≡ cycle_ended cycle }
{
    match cycle {
        OwnCycle::Begun => OwnCycle::Ended,
        _ => cycle,
    }
}

impl Core {
    /// What a step makes of a caller's call, when its access finds this word.
    pub(crate) fn progress(&self, flight: Flight, found: u64, step: Step) -> Progress
        ensures { result ≡ progress self.now.config self.now.now flight found step }
    {
        match step {
            Step::Enter(op) | Step::Take(Some(op)) => begun_where_free(flight, op, found),
            Step::Leave | Step::Give => Progress {
                flight: AT_REST,
                answer: None,
            },
            Step::Reg => progress_reg(flight, found),
            Step::Probe => progress_probe(flight, found),
            Step::Read => progress_read(flight, found),
            Step::Write | Step::Setg => onward(flight, Some(Answer::Done)),
            Step::Cas => progress_cas(flight, found),
            Step::Getg => progress_getg(flight, found),
            Step::Dirty => onward(flight, None),
            Step::Look(word) => self.progress_look(flight, word),
            Step::Quar { page, value } => self.progress_quarantine(flight, page, value),
            Step::Grant => decided(flight, Answer::Done),
            Step::Full => decided(flight, Answer::Full),
            _ => still(flight),
        }
    }

    /// Whether a look is at the quarantine word of an undecided `Free`'s target, which is freed already.
    fn sees_double(&self, flight: Flight, word: Word) -> bool
        ensures { result ≡ sees_double self.now.now.words
            (target self.now.config.pages self.now.now.words flight) word }
    {
        match (self.target(flight), word) {
            (Some(cell), Word::Quar(page)) => page == cell.page && self.table.is_freed(cell),
            _ => false,
        }
    }

    fn progress_look(&self, flight: Flight, word: Word) -> Progress
        ensures { result ≡ progress_look self.now.config self.now.now.words flight word }
    {
        if self.sees_double(flight, word) {
            decided(flight, Answer::Double)
        } else {
            still(flight)
        }
    }

    /// `quar`, which decides a `Free` if it frees the target.
    fn progress_quarantine(&self, flight: Flight, page: u64, value: u64) -> Progress
        ensures { result ≡ progress_freed flight
            (cell_freed self.now.config.pages self.now.now.words flight page value) }
    {
        match self.cell_freed(flight, page, value) {
            Some(_) => decided(flight, Answer::Done),
            None => still(flight),
        }
    }

    /// What the turn's holder has done after its step.
    pub(crate) fn holding_behind(
        &self,
        seat: Seat,
        flight: Flight,
        found: u64,
        step: Step,
    ) -> Holding
        ensures { result ≡ holding_behind self.now.config self.now.now seat flight found step
            self.now.now.seats.holding }
    {
        let mut holding = self.holding;
        match step {
            Step::Take(_) if found == 0 => return NOTHING_DONE,
            Step::Give => return NOTHING_DONE,
            Step::Look(word) => holding.hand = self.hand_given(seat, word, found).or(holding.hand),
            Step::Head { .. } => {
                let place = self.place_now(flight);
                holding.placing = self.placing_served(chosen(holding.placing, place));
            }
            Step::Used { .. } => {
                let place = self.place_now(flight);
                holding.placing = self.placing_served(taken(holding.placing, place));
            }
            Step::Quar { page, value } => {
                holding.freed = self.run_freed(flight, page, value).or(holding.freed);
            }
            Step::Grant => holding.placing = Placing::Granted,
            Step::Mark { page, value } => {
                holding.placing = self.placing_marked(flight, page, value);
            }
            Step::Begin => {
                holding.hand = None;
                holding.cycle = OwnCycle::Begun;
            }
            Step::End => holding.cycle = cycle_ended(holding.cycle),
            _ => {}
        }
        holding
    }

    /// Whether the cell belongs to a mapped allocation.
    fn is_mapped_cell(&self, cell: Cell) -> bool
        ensures { result ≡ is_mapped_cell self.now.now.words self.now.now.seats.holding.placing cell }
    {
        self.table.is_used(cell)
            && !(heads_run(self.table.header(cell.page)) && self.table.is_freed(cell))
            && !is_ungranted(self.holding.placing, cell)
    }

    fn is_in_stop(&self, seat: Seat) -> bool
        ensures { result ≡ is_in_stop self.now.config.callers self.now.now.words seat }
    {
        self.table.is_at(Phase::Wanted) && self.others_are_held(seat)
    }

    /// The hand that a heap word of a scanned cell gives. It gives one if the cell is marked, or, in the stop, if it
    /// belongs to a mapped allocation.
    fn hand_of_cell(&self, in_stop: bool, cell: Cell, value: u64) -> Option<Hand>
        ensures { result ≡ hand_of_cell self.now.now.words in_stop self.now.now.seats.holding.placing cell value }
    {
        if has_no_pointers(self.table.header(cell.page)) {
            None
        } else if self.table.is_marked(cell) {
            Some(Hand {
                value,
                source: Source::Marked,
            })
        } else if in_stop && self.is_mapped_cell(cell) {
            Some(Hand {
                value,
                source: Source::Unmarked,
            })
        } else {
            None
        }
    }

    /// The hand that a look gives, if it gives one.
    fn hand_given(&self, seat: Seat, word: Word, value: u64) -> Option<Hand>
        ensures { result ≡ hand_given self.now.config self.now.now seat word value }
    {
        match word {
            Word::Reg { .. } | Word::Global(_) => Some(Hand {
                value,
                source: Source::Root,
            }),
            Word::Heap(word) => match self.cell_of_word(word) {
                Some(cell) => self.hand_of_cell(self.is_in_stop(seat), cell, value),
                None => None,
            },
            _ => None,
        }
    }

    /// How far a place is after a step that may make this of it. While the phase is releasing the step serves no
    /// object, and leaves the place as it is.
    fn placing_served(&self, served: Placing) -> Placing
        ensures { result ≡ (if is_phase self.now.now.words 4 then self.now.now.seats.holding.placing else served) }
    {
        if self.table.is_at(Phase::Releasing) {
            self.holding.placing
        } else {
            served
        }
    }

    /// How far a place is after a `mark`, which may serve the new object.
    fn placing_marked(&self, flight: Flight, page: u64, value: u64) -> Placing
        ensures { result ≡ (if marks_place self.now.now.words (object_made self.now.config flight.op)
            (place_now self.now.config self.now.now flight) page value then chosen self.now.now.seats.holding.placing
            (place_now self.now.config self.now.now flight) else self.now.now.seats.holding.placing) }
    {
        if self.marks_place(flight, page, value) {
            chosen(self.holding.placing, self.place_now(flight))
        } else {
            self.holding.placing
        }
    }

    /// The run whose object a `quar` frees.
    fn run_freed(&self, flight: Flight, page: u64, value: u64) -> Option<RunPages>
        ensures { result ≡ run_of_cell self.now.now.words
            (cell_freed self.now.config.pages self.now.now.words flight page value) }
    {
        let cell = self.cell_freed(flight, page, value)?;
        run_headed(self.table.header(cell.page), cell.page)
    }

    /// What the marker of this number is at after its step.
    pub(crate) fn marker_behind(&self, number: u64, found: u64, step: Step) -> Marker
        requires range { IsTrue (is_in_range self.now.config (Seat.Marker number) at_rest step) }
        requires own { IsTrue (marker_may self.now.config (marker_of self.now.now number) step) }
        ensures { result ≡ marker_behind self.now.config found step (marker_of self.now.now number) }
    {
        self.is_within_limits();
        marker_behind(&self.config, found, step, self.marker(number))
    }

    /// How many words of storage an object leaves that a `quar` frees: those of a small object's cell, and none of a
    /// run, which is no longer mapped.
    fn words_freed(&self, cell: Option<Cell>) -> u64
        ensures { result ≡ words_freed self.now.now.words cell }
    {
        match cell {
            Some(cell) if !heads_run(self.table.header(cell.page)) => {
                words_under(self.table.header(cell.page))
            }
            _ => 0,
        }
    }

    /// How many words are fresh after a step. The count stops at 2^64 - 1.
    pub(crate) fn fresh_behind(&self, flight: Flight, step: Step) -> u64
        ensures { result ≡ fresh_behind self.now.config self.now.now flight step }
    {
        match step {
            Step::Quar { page, value } => {
                let words = self.words_freed(self.cell_freed(flight, page, value));
                self.fresh_words.saturating_add(words)
            }
            Step::Begin => 0,
            _ => self.fresh_words,
        }
    }
}
