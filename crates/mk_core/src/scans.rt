//! What a marker is at after its steps, and the cell that it has seen.
ghost use Rattle.std.specs.Prelude.{◌≡◌, ◌<◌, ◌≤◌, ◌==◌, ◌%◌, IsTrue, true, if◌then◌else◌};
ghost use Rattle.mk_geom.specs.Addresses.{page_at_address};
ghost use Rattle.mk_core.specs.{Calls.at_rest, Effects.{scan_begun, scan_claimed, scan_onward, open_hand}};
ghost use Rattle.mk_core.specs.{Effects.{hand_behind_look, behind_mlook, marker_behind}, Enabled.marker_may};
ghost use Rattle.mk_core.specs.{MarkingConditions.{cell_seen, has_next_word}, Conditions.is_in_range};
ghost use Rattle.mk_core.specs.declared.events.Seat.TheVariants.{Marker as MarkerSeat};

use crate::cells::{has_bit, words_scanned, words_under};
use crate::machine::OUTSIDE;
use crate::{Config, Marker, Phase, Presence, Scan, SeenHeader, Step, Word};
use mk_geom::{Cell, HEAP_START, PAGE_BYTES, PAGE_WORDS, lookup, page_at};

/// The scan of a cell under the header word that was seen. It has no words to load if the cell isn't scanned.
fn scan_begun(page: u64, index: u64, header: u64) -> Scan
    requires page { page < 4096 }
    requires index { index < 32 }
    ensures { result ≡ scan_begun page index header }
{
    let next = PAGE_WORDS * page + index * words_under(header);
    Scan {
        page,
        index,
        next,
        end: next + words_scanned(header),
    }
}

/// The scan that a claim begins when it finds these marks.
fn scan_claimed(page: u64, index: u64, marks: u64, seen: Option<SeenHeader>) -> Option<Scan>
    requires page { page < 4096 }
    requires index { index < 32 }
    ensures { result ≡ scan_claimed page index marks seen }
{
    match seen {
        Some(seen) if has_bit(marks, index) => Some(scan_begun(page, index, seen.header)),
        _ => None,
    }
}

/// The scan after the load of its next word.
fn scan_onward(scan: Option<Scan>) -> Option<Scan>
    requires { IsTrue (has_next_word scan) }
    ensures { result ≡ scan_onward scan }
{
    scan.map(|scan| Scan {
        next: scan.next + 1,
        ..scan
    })
}

/// How a marker is in that comes in: it attends if it finds the phase marking, and otherwise visits.
fn presence_behind_attend(found: u64) -> Presence
    ensures { result ≡ (if found % 8 == 1 then Presence.Attending else Presence.Visiting) }
{
    if Phase::Marking.is_in(found) {
        Presence::Attending
    } else {
        Presence::Visiting
    }
}

/// The open hand after a load of this value: none if the value is outside the heap.
fn open_hand(config: &Config, value: u64) -> Option<u64>
    requires { config.now.pages ≤ 4096 }
    ensures { result ≡ open_hand config.now value }
{
    let end = HEAP_START + PAGE_BYTES * config.pages;
    (HEAP_START..end).contains(&value).then_some(value)
}

/// The open hand after a look at the header of a page: closed if the header shows nothing there.
fn hand_behind_look(config: &Config, page: u64, header: u64, hand: Option<u64>) -> Option<u64>
    ensures { result ≡ hand_behind_look config.now page header hand }
{
    let value = hand?;
    if page == page_at(value) && lookup(config.pages, header, value).is_none() {
        None
    } else {
        Some(value)
    }
}

/// What a marker is at after its look.
fn behind_mlook(config: &Config, found: u64, word: Word, marker: Marker) -> Marker
    ensures { result ≡ behind_mlook config.now found word marker }
{
    match word {
        Word::Head(page) => Marker {
            hand: hand_behind_look(config, page, found, marker.hand),
            seen: Some(SeenHeader {
                page,
                header: found,
            }),
            ..marker
        },
        _ => Marker {
            seen: None,
            ..marker
        },
    }
}

/// The cell into which the open hand points by the header that was seen of its page.
pub fn cell_seen(config: &Config, marker: Marker) -> Option<Cell>
    ensures { result ≡ cell_seen config.now marker.seen marker.hand }
{
    let seen = marker.seen?;
    let value = marker.hand?;
    if seen.page == page_at(value) {
        lookup(config.pages, seen.header, value)
    } else {
        None
    }
}

/// What a marker is at after its step, which found this number.
#[inline(always)]
pub fn marker_behind(config: &Config, found: u64, step: Step, marker: Marker) -> Marker
    requires limits { config.now.pages ≤ 4096 }
    requires range { is_in_range config.now (MarkerSeat 0) at_rest step ≡ true }
    requires own { marker_may config.now marker step ≡ true }
    ensures { result ≡ marker_behind config.now found step marker }
{
    match step {
        Step::Attend => Marker {
            presence: presence_behind_attend(found),
            ..OUTSIDE
        },
        Step::Quit => OUTSIDE,
        Step::Mlook(word) => behind_mlook(config, found, word, marker),
        Step::Claim { page, cell } => Marker {
            scan: scan_claimed(page, cell, found, marker.seen),
            ..marker
        },
        Step::Mload => Marker {
            scan: scan_onward(marker.scan),
            hand: open_hand(config, found),
            ..marker
        },
        Step::Mmark => Marker {
            hand: None,
            ..marker
        },
        Step::Mblack => Marker {
            scan: None,
            ..marker
        },
        _ => marker,
    }
}
