//! The core: one moment of a heap's history, and its step.
ghost use Rattle.std.specs.Prelude.{◌≡◌, ◌<◌, slice_index_or};
ghost use Rattle.mk_core.specs.Moments.{IsWithinLimits, flight_of, marker_of};

use crate::table::Table;
use crate::{Config, Flight, Holding, Marker, OwnCycle, Placing, Presence, Seat, Stage};
use mk_never::Op;
use std::marker::Model;

/// The words of the table and what each seat is in the middle of, after some events.
#[derive(Drop)]
pub struct Core {
    pub(crate) config: Config,
    pub(crate) table: Table,
    pub(crate) flights: Vec<Flight>,
    pub(crate) holding: Holding,
    pub(crate) markers: Vec<Marker>,
    pub(crate) fresh_words: u64,
}

impl Model for Core {
    ghost use Rattle.mk_core.specs.History.{CoreState};

    ghost Value = { CoreState };

    ghost view = { λ c. record {
      config = c.config;
      now = record {
        words = c.table;
        seats = record { flights = c.flights.items; holding = c.holding; markers = c.markers.items };
        fresh_words = c.fresh_words;
      };
    } };

    ghost use Rattle.mk_core.specs.Moments.{IsWithinLimits};

    ghost invariant = { λ c. IsWithinLimits c.config };
}

/// What a caller is at that is in no call.
pub(crate) const AT_REST: Flight = Flight {
    stage: Stage::Idle,
    op: Op::IsNull { p: 0 },
    q: 0,
    p: 0,
    r: 0,
    loaded: 0,
};

/// A marker that is out.
pub(crate) const OUTSIDE: Marker = Marker {
    presence: Presence::Out,
    scan: None,
    hand: None,
    seen: None,
};

/// What a seat has done that has just taken the turn.
pub(crate) const NOTHING_DONE: Holding = Holding {
    hand: None,
    placing: Placing::Unplaced,
    freed: None,
    cycle: OwnCycle::NotBegun,
};

impl Core {
    /// The configuration is within the limits.
    pub(crate) fn is_within_limits(&self)
        ensures { IsWithinLimits self.now.config }
    {
        let _config = &self.config;
    }

    /// The call of a caller; the host and markers are in no call.
    pub(crate) fn flight(&self, seat: Seat) -> Flight
        ensures { result ≡ flight_of self.now.now seat }
    {
        match seat {
            Seat::Caller(caller) => {
                self.flights
                    .get(caller as usize)
                    .copied()
                    .unwrap_or(AT_REST)
            }
            Seat::Marker(_) | Seat::Host => AT_REST,
        }
    }

    /// What a marker is at.
    pub(crate) fn marker(&self, marker: u64) -> Marker
        ensures { result ≡ marker_of self.now.now marker }
    {
        self.markers
            .get(marker as usize)
            .copied()
            .unwrap_or(OUTSIDE)
    }
}
