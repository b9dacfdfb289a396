//! The seven conditions of an event, by name.
ghost use Rattle.std.specs.Prelude.{◌≡◌, ◌≤◌};
ghost use Rattle.mk_core.specs.Enabled.{condition_number};

/// What an event can fail, in the order in which it is asked.
#[derive(Clone, Copy)]
pub(crate) enum Condition {
    /// The seat exists.
    Seat,
    /// The kind of step is open to the seat.
    Kind,
    /// The step comes next in the order of its call.
    Order,
    /// The arguments are in range.
    Range,
    /// The gates are as the kind asks.
    Gates,
    /// The phase is one that the kind asks for.
    Phase,
    /// What the kind itself asks of the words.
    Own,
}

impl Condition {
    /// Its number, 1 to 7.
    pub(crate) fn number(self) -> u64
        ensures is { result ≡ condition_number self }
        ensures some { 1 ≤ result }
    {
        match self {
            Condition::Seat => 1,
            Condition::Kind => 2,
            Condition::Order => 3,
            Condition::Range => 4,
            Condition::Gates => 5,
            Condition::Phase => 6,
            Condition::Own => 7,
        }
    }
}
