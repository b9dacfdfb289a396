//! Conditions 4, 5 and 6 of an event: its arguments are in range, and the gates and the phase are as its kind asks. As
//! in the definitions, `_` stands for the kinds of which a condition asks nothing.
ghost use Rattle.std.specs.Prelude.{◌≡◌, ◌*◌, ◌==◌, nat_lt};
ghost use Rattle.mk_core.specs.{Moments.{is_number_of, is_held, others_are_held, none_is_held}, NewPlaces.target};
ghost use Rattle.mk_core.specs.Conditions.{is_word, is_other_caller, is_word_met, is_in_range, is_run_cell, has_gates};
ghost use Rattle.mk_core.specs.{Words.phase_number, Conditions.{has_phase, may_look_at}};

use crate::bounded::all_below;
use crate::calls::word_met;
use crate::cells::heads_run;
use crate::machine::Core;
use crate::table::Table;
use crate::{Flight, Gate, Phase, Seat, Step, Word};
use mk_geom::{Cell, HEAP_START, PAGE_WORDS, is_unmapped};

impl Seat {
    /// Whether the seat is the caller of this number.
    pub fn is_caller(self, caller: u64) -> bool
        ensures { result ≡ is_number_of self caller }
    {
        match self {
            Seat::Caller(number) => number == caller,
            Seat::Marker(_) | Seat::Host => false,
        }
    }
}

impl Table {
    /// Whether the caller's gate is held.
    fn is_held(&self, caller: u64) -> bool
        ensures { result ≡ is_held self.now caller }
    {
        Gate::Held.is_in(self.gate(caller))
    }

    /// Whether the seat may look at the word: a register is looked at by its own caller, or while that
    /// caller's gate is held.
    fn may_look_at(&self, seat: Seat, word: Word) -> bool
        ensures { result ≡ may_look_at self.now seat word }
    {
        match word {
            Word::Reg { caller, .. } => seat.is_caller(caller) || self.is_held(caller),
            _ => true,
        }
    }

    /// Whether the cell is a large object's.
    fn is_run(&self, cell: Option<Cell>) -> bool
        ensures { result ≡ is_run_cell self.now cell }
    {
        cell.is_some_and(|cell| heads_run(self.header(cell.page)))
    }
}

/// Whether a phase's number is that of this one.
fn is_at(phase: u64, other: Phase) -> bool
    ensures { result ≡ (phase == phase_number other) }
{
    phase == other.number()
}

/// Whether the phase is one at which the kind of step may come. If a kind has several cases, it is a phase that one of
/// them names.
pub(crate) fn has_phase(phase: u64, step: Step) -> bool
    ensures { result ≡ has_phase phase step }
{
    match step {
        Step::Give => is_at(phase, Phase::None)
            || is_at(phase, Phase::Marking)
            || is_at(phase, Phase::Over),
        Step::Head { .. } | Step::Used { .. } | Step::Quar { .. } => {
            is_at(phase, Phase::None)
                || is_at(phase, Phase::Marking)
                || is_at(phase, Phase::Releasing)
        }
        Step::Grant => is_at(phase, Phase::None) || is_at(phase, Phase::Marking),
        Step::Open(_) => !is_at(phase, Phase::Closed),
        Step::Clear(_) | Step::Full | Step::Begin => is_at(phase, Phase::None),
        Step::Mark { .. } => is_at(phase, Phase::Marking) || is_at(phase, Phase::Wanted),
        Step::Close | Step::Black { .. } => is_at(phase, Phase::Wanted),
        Step::Release => is_at(phase, Phase::Closed),
        Step::End => is_at(phase, Phase::Releasing),
        Step::Want => is_at(phase, Phase::Marking),
        Step::Undirty(_) | Step::Unblack(_) => is_at(phase, Phase::None)
            || is_at(phase, Phase::Wanted),
        _ => true,
    }
}

impl Core {
    /// Whether the table has a word of that name.
    fn is_word(&self, word: Word) -> bool
        ensures { result ≡ is_word self.now.config word }
    {
        match word {
            Word::Gate(caller) => caller < self.config.callers,
            Word::Reg { caller, register } => caller < self.config.callers && register < 8,
            Word::Global(global) => global < 64,
            Word::Head(page)
            | Word::Used(page)
            | Word::Quar(page)
            | Word::Mark(page)
            | Word::Black(page)
            | Word::Dirty(page) => page < self.config.pages,
            Word::Heap(word) => self.is_heap_word(word as u128),
            _ => true,
        }
    }

    fn is_heap_word(&self, word: u128) -> bool
        ensures { result ≡ nat_lt word (64 * self.now.config.pages) }
    {
        word < PAGE_WORDS as u128 * self.config.pages as u128
    }

    fn is_other_caller(&self, seat: Seat, caller: u64) -> bool
        ensures { result ≡ is_other_caller self.now.config seat caller }
    {
        caller < self.config.callers && !seat.is_caller(caller)
    }

    /// Whether the word that the call accesses is one of the heap.
    fn is_word_met(&self, flight: Flight) -> bool
        ensures { result ≡ is_word_met self.now.config flight }
    {
        flight.q >= HEAP_START && self.is_heap_word(word_met(flight))
    }

    /// Whether the arguments of a step are in range, for a seat that is in the middle of this call.
    pub(crate) fn is_in_range(&self, seat: Seat, flight: Flight, step: Step) -> bool
        ensures { result ≡ is_in_range self.now.config seat flight step }
    {
        match step {
            Step::Enter(op) | Step::Take(Some(op)) => self.has_operands(op),
            Step::Probe | Step::Read | Step::Write | Step::Cas | Step::Dirty => {
                self.is_word_met(flight)
            }
            Step::Look(word) | Step::Mlook(word) => self.is_word(word),
            Step::Head { page, .. }
            | Step::Used { page, .. }
            | Step::Quar { page, .. }
            | Step::Clear(page)
            | Step::Mark { page, .. }
            | Step::Undirty(page)
            | Step::Black { page, .. }
            | Step::Unblack(page) => page < self.config.pages,
            Step::Hold(caller) | Step::Open(caller) => self.is_other_caller(seat, caller),
            Step::Wipe(word) => self.is_heap_word(word as u128),
            Step::Claim { page, cell } => page < self.config.pages && cell < 32,
            _ => true,
        }
    }

    /// Whether all gates but the seat's own are held.
    pub(crate) fn others_are_held(&self, seat: Seat) -> bool
        ensures { result ≡ others_are_held self.now.config.callers self.now.now.words seat }
    {
        all_below(self.config.callers, |caller| {
            seat.is_caller(caller) || self.table.is_held(caller)
        })
    }

    /// Whether no gate is held.
    pub(crate) fn none_is_held(&self) -> bool
        ensures { result ≡ none_is_held self.now.config.callers self.now.now.words }
    {
        all_below(self.config.callers, |caller| !self.table.is_held(caller))
    }

    /// Whether the gates are as a step of the seat asks, for a seat that is in the middle of this call.
    pub(crate) fn has_gates(&self, seat: Seat, flight: Flight, step: Step) -> bool
        ensures { result ≡ has_gates self.now.config self.now.now.words seat flight step }
    {
        match step {
            Step::Give => self.none_is_held(),
            Step::Look(word) => self.table.may_look_at(seat, word),
            Step::Head { value, .. } => !is_unmapped(value) || self.others_are_held(seat),
            Step::Quar { .. } => {
                !self.table.is_run(self.target(flight)) || self.others_are_held(seat)
            }
            Step::Hold(caller) => !self.table.is_held(caller),
            Step::Open(caller) => self.table.is_held(caller),
            Step::Close | Step::Release | Step::Want | Step::Black { .. } => {
                self.others_are_held(seat)
            }
            Step::Undirty(_) | Step::Unblack(_) => {
                !self.table.is_at(Phase::Wanted) || self.others_are_held(seat)
            }
            _ => true,
        }
    }
}
