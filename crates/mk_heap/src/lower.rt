//! What stands on this crate finds here what it needs of the crates below it.

/// New objects and freed ones.
pub mod objects {
    pub use mk_alloc::{
        Double, Freed, Full, Request, free_object, new_object, place_object, retire_object,
    };
}

/// What calls are made of.
pub mod callers {
    pub use mk_alloc::lower::callers::{Caller, Refusal};
}

/// What marks beside the callers.
pub mod markers {
    pub use mk_marker::{Marker, Work};
}

/// What makes cycles.
pub mod cycles {
    pub use mk_alloc::lower::cycles::{
        Engine, MostlyEngine, Released, StopEngine, begin_cycle, finish_cycle,
    };
}

/// The words that threads share.
pub mod words {
    pub use mk_alloc::lower::words::{
        Final, Held, MarkerPass, Pass, Patience, Stopped, Turn, Words, take_turn,
    };
}
