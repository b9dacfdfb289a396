//! Why a call is refused.

/// Each refusal has a number.
#[derive(Clone, Copy, Debug, PartialEq, Eq)]
pub enum Refusal {
    /// An access to a large allocation that is freed.
    Fault = 1,
    /// An access through null.
    Null = 2,
    /// The holder of the turn held the caller's gate, so no call was begun.
    Held = 4,
}
