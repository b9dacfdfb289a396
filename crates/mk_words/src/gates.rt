//! What is known of the gates while a seat has the turn.

/// Whether it is known that the gates of all callers but the turn's holder are held.
pub trait Gates {
    ghost use Rattle.std.specs.Prelude.{Bool};

    ghost are_held: { Bool };
}

/// Nothing is known of the gates.
pub struct AnyGates;

impl Gates for AnyGates {
    ghost use Rattle.std.specs.Prelude.{false};

    ghost are_held = { false };
}

/// The gates of all callers but the turn's holder are held.
pub struct AllHeld;

impl Gates for AllHeld {
    ghost use Rattle.std.specs.Prelude.{true};

    ghost are_held = { true };
}
