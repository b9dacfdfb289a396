//! Which word each event reaches, and how.
ghost use Rattle.std.specs.Prelude.{◌≡◌, ◌+◌, ◌%◌, ◌^◌, IsTrue};
ghost use Rattle.mk_geom.specs.Addresses.{address_of};
ghost use Rattle.mk_core.specs.{Words.bit_for, Calls.word_met, Conditions.seat_exists};
ghost use Rattle.mk_core.specs.Conditions.{is_in_range, is_word_met};
ghost use Rattle.mk_core.specs.{NewPlaces.{object_made, base_made}, MarkingConditions.cell_seen};
ghost use Rattle.mk_core.specs.{Moments.{flight_of, marker_at, holder_number}, Accesses.{caller_number, register_met}};
ghost use Rattle.mk_core.specs.Accesses.{reg_access, tally_word, granted_base, next_word, scan_page, scan_bit};
ghost use Rattle.mk_core.specs.Accesses.{seen_page, seen_bit, word_accessed, access};
ghost use Rattle.mk_core.specs.declared.events.Word.TheVariants as word;

use crate::calls::{
    global_of, page_met, register_d, register_p, register_q, register_r, value_for, value_written,
    word_met,
};
use crate::cells::bit_for;
use crate::machine::OUTSIDE;
use crate::placing::base_made;
use crate::scans::cell_seen;
use crate::{
    Access, Core, Event, Flight, Marker, Placing, Scan, Seat, Stage, Step, TableWord, Tally, Word,
};
use mk_geom::{Cell, HEAP_START, WORD_BYTES};

fn caller_number(seat: Seat) -> u64
    ensures { result ≡ caller_number seat }
{
    match seat {
        Seat::Caller(caller) => caller,
        Seat::Marker(_) | Seat::Host => 0,
    }
}

/// The register of a `reg` step, by the stage of the call.
fn register_met(flight: Flight) -> u8
    ensures { result ≡ register_met flight flight.stage }
{
    match flight.stage {
        Stage::LoadQ => register_q(flight.op),
        Stage::LoadP => register_p(flight.op),
        Stage::LoadR => register_r(flight.op),
        _ => register_d(flight.op),
    }
}

fn reg_access(flight: Flight) -> Access
    ensures { result ≡ reg_access flight flight.stage }
{
    match flight.stage {
        Stage::Store => Access::Store(value_for(flight)),
        Stage::Put => Access::Store(flight.loaded),
        _ => Access::Load,
    }
}

/// The word of a tally.
#[inline(always)]
pub fn tally_word(tally: Tally) -> Word
    ensures { result ≡ tally_word tally }
{
    match tally {
        Tally::Held => Word::Held,
        Tally::Fresh => Word::Fresh,
        Tally::Cycles => Word::Cycles,
        Tally::Released => Word::Released,
        Tally::Full => Word::Full,
    }
}

/// The number of the heap word that a scan loads next, or 0 if nothing is scanned.
#[inline(always)]
pub fn next_word(scan: Option<Scan>) -> u64
    ensures { result ≡ next_word scan }
{
    scan.map_or(0, |scan| scan.next)
}

/// The page of the cell that is scanned, or 0 if none is.
#[inline(always)]
pub fn scan_page(scan: Option<Scan>) -> u64
    ensures { result ≡ scan_page scan }
{
    scan.map_or(0, |scan| scan.page)
}

/// The bit of the cell that is scanned, or 0 if none is.
#[inline(always)]
pub fn scan_bit(scan: Option<Scan>) -> u64
    ensures { result ≡ scan_bit scan }
{
    scan.map_or(0, |scan| bit_for(scan.index))
}

/// The page of the cell that the open hand points into, or 0 if it points into none.
#[inline(always)]
pub fn seen_page(cell: Option<Cell>) -> u64
    ensures { result ≡ seen_page cell }
{
    cell.map_or(0, |cell| cell.page)
}

/// The bit of the cell that the open hand points into, or 0 if it points into none.
#[inline(always)]
pub fn seen_bit(cell: Option<Cell>) -> u64
    ensures { result ≡ seen_bit cell }
{
    cell.map_or(0, |cell| bit_for(cell.index))
}

fn register_word(caller: u64, register: u8) -> Word
    ensures { result ≡ word.Reg caller register }
{
    Word::Reg {
        caller,
        register: register as u64,
    }
}

impl Core {
    /// What a marker is at. A seat that is no marker counts as outside.
    pub(crate) fn marker_at(&self, seat: Seat) -> Marker
        ensures { result ≡ marker_at self.now.now seat }
    {
        match seat {
            Seat::Marker(marker) => self.marker(marker),
            Seat::Caller(_) | Seat::Host => OUTSIDE,
        }
    }

    /// What the turn is while the seat holds it.
    fn turn_held(&self, seat: Seat) -> u64
        requires { IsTrue (seat_exists self.now.config seat) }
        ensures { result ≡ 1 + holder_number self.now.config seat }
    {
        self.is_within_limits();
        match seat {
            Seat::Caller(caller) => 1 + caller,
            Seat::Marker(_) | Seat::Host => 1 + self.config.callers,
        }
    }

    /// The number of the heap word that a call's access meets.
    fn heap_word(&self, flight: Flight) -> u64
        requires { IsTrue (is_word_met self.now.config flight) }
        ensures { result ≡ word_met flight }
    {
        self.is_within_limits();
        word_met(flight) as u64
    }

    /// The number of the first heap word of the object that is granted.
    fn granted_base(&self, flight: Flight) -> u128
        ensures { result ≡ granted_base self.now.config flight self.now.now.seats.holding.placing }
    {
        match self.holding.placing {
            Placing::Used(place) => base_made(self.object_made(flight.op), place),
            _ => 0,
        }
    }

    /// The address of the object that is granted.
    fn granted_address(&self, flight: Flight) -> u64
        ensures { result ≡ address_of
            (granted_base self.now.config flight self.now.now.seats.holding.placing) % 2 ^ 64 }
    {
        let address = self
            .granted_base(flight)
            .wrapping_mul(WORD_BYTES as u128)
            .wrapping_add(HEAP_START as u128);
        (address % (1 << 64)) as u64
    }

    /// The word that an event reaches.
    pub(crate) fn word_reached(&self, event: Event) -> TableWord
        requires range { IsTrue
            (is_in_range self.now.config event.seat (flight_of self.now.now event.seat) event.step) }
        ensures { result ≡ word_accessed self.now.config self.now.now event }
    {
        let caller = caller_number(event.seat);
        let flight = self.flight(event.seat);
        let marker = self.marker_at(event.seat);
        TableWord::Named(match event.step {
            Step::Take(_) | Step::Give | Step::Full => return TableWord::Turn,
            Step::Enter(_) | Step::Leave => Word::Gate(caller),
            Step::Hold(other) | Step::Open(other) => Word::Gate(other),
            Step::Reg => register_word(caller, register_met(flight)),
            Step::Grant => register_word(caller, register_d(flight.op)),
            Step::Getg | Step::Setg => Word::Global(global_of(flight.op) as u64),
            Step::Look(word) | Step::Mlook(word) => word,
            Step::Probe => Word::Head(page_met(flight)),
            Step::Head { page, .. } => Word::Head(page),
            Step::Used { page, .. } => Word::Used(page),
            Step::Quar { page, .. } => Word::Quar(page),
            Step::Clear(page) | Step::Mark { page, .. } => Word::Mark(page),
            Step::Claim { page, .. } => Word::Mark(page),
            Step::Mmark => Word::Mark(seen_page(cell_seen(&self.config, marker))),
            Step::Black { page, .. } | Step::Unblack(page) => Word::Black(page),
            Step::Mblack => Word::Black(scan_page(marker.scan)),
            Step::Dirty => Word::Dirty(page_met(flight)),
            Step::Undirty(page) => Word::Dirty(page),
            Step::Read | Step::Write | Step::Cas => Word::Heap(self.heap_word(flight)),
            Step::Wipe(word) => Word::Heap(word),
            Step::Mload => Word::Heap(next_word(marker.scan)),
            Step::Tally { tally, .. } => tally_word(tally),
            _ => Word::Phase,
        })
    }

    /// How an event accesses the word that it reaches.
    pub(crate) fn access(&self, event: Event) -> Access
        requires seat { IsTrue (seat_exists self.now.config event.seat) }
        ensures { result ≡ access self.now.config self.now.now event }
    {
        let turn = self.turn_held(event.seat);
        let flight @ Flight { p, r, .. } = self.flight(event.seat);
        let marker = self.marker_at(event.seat);
        match event.step {
            Step::Enter(_) => Access::Exchange { old: 0, new: 1 },
            Step::Hold(_) => Access::Exchange { old: 0, new: 2 },
            Step::Take(_) => Access::Exchange { old: 0, new: turn },
            Step::Cas => Access::Exchange { old: p, new: r },
            Step::Reg => reg_access(flight),
            Step::Write => Access::Store(value_written(flight)),
            Step::Setg => Access::Store(p),
            Step::Grant => Access::Store(self.granted_address(flight)),
            Step::Dirty => Access::Store(1),
            Step::Leave
            | Step::Give
            | Step::Open(_)
            | Step::Clear(_)
            | Step::Wipe(_)
            | Step::Undirty(_)
            | Step::Unblack(_) => Access::Store(0),
            Step::Head { value, .. }
            | Step::Used { value, .. }
            | Step::Quar { value, .. }
            | Step::Tally { value, .. } => Access::Store(value),
            Step::Mark { value, .. } | Step::Black { value, .. } => Access::Or(value),
            Step::Mmark => Access::Or(seen_bit(cell_seen(&self.config, marker))),
            Step::Mblack => Access::Or(scan_bit(marker.scan)),
            Step::Begin | Step::Close | Step::Release | Step::Want => Access::Add(1),
            Step::Over => Access::Add(5),
            Step::Attend => Access::Add(8),
            Step::End => Access::Sub(4),
            Step::Quit => Access::Sub(8),
            _ => Access::Load,
        }
    }
}
