//! Schedules: the events of a history in the order in which they are to be made, without the operations.
ghost use Rattle.std.specs.Prelude.{◌≡◌};

use mk_core::{Seat, Step};
use std::marker::Model;

/// An event of a schedule: its line in the input, and its place in that line, both from 1. Its form is its step but for
/// the operation, which is the script's: an `enter` carries none that it may carry, and a `take` carries none at all.
#[derive(Clone, Copy)]
pub struct Entry {
    pub seat: Seat,
    pub form: Step,
    pub line: u64,
    pub place: u64,
}

/// The events of a schedule, in order.
#[derive(Drop)]
pub struct Schedule {
    pub(crate) entries: Vec<Entry>,
}

impl Model for Schedule {
    ghost use Rattle.std.specs.Prelude.{List};
    ghost use Rattle.mk_replay.specs.declared.schedule.Entry.{Entry};

    ghost Value = { List Entry };

    ghost view = { λ s. s.entries.items };
}

impl Schedule {
    /// The entries, in order.
    pub fn entries(&self) -> &[Entry]
        ensures { result.now ≡ self.now }
    {
        self.entries.as_slice()
    }
}
