//! What stands on this crate finds here what it needs of the crates below it.

/// What calls are made of.
pub mod callers {
    pub use mk_caller::{Caller, Refusal};
}

/// What makes cycles.
pub mod cycles {
    pub use mk_cycle::{Engine, MostlyEngine, Released, StopEngine, begin_cycle, finish_cycle};
}

/// The words that threads share.
pub mod words {
    pub use mk_caller::lower::words::{
        Final, Held, MarkerPass, Pass, Patience, Stopped, Turn, Words, take_turn,
    };
}
