//! The rule of the table: there is one history, of which each pass has seen a beginning that has all events of the
//! pass's seats.

use crate::homes::MapHome;
use atomic_table::TableRule;
use mk_core::{Config, Event, Seat};
use std::collections::LinkedList;

/// Seats, and the events that were seen with them. No value of it is made.
pub struct Part {
    pub seats: LinkedList<Seat>,
    pub seen: LinkedList<Event>,
}

/// What a pass knows: the table's configuration, its seats and what it has seen, and the part of a pass that was
/// joined, up to the next look. No value of it is made.
pub struct View {
    pub config: Config,
    pub own: Part,
    pub came: Part,
}

/// The rule of the table: there is one history, and each view is a part of it.
pub struct OneHistory;

impl TableRule<MapHome, View, Config> for OneHistory {
    ghost use Rattle.std.specs.Prelude.{[]};
    ghost use Rattle.mk_words.specs.{Rule.{Kept, view}, States.all_seats};

    ghost holds = { Kept };

    ghost first = { λ c. view c (all_seats c) [] };
}
