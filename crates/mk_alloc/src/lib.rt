//! New objects and freed ones: the calls of a script under the turn, and how much memory quarantine takes.
//! Each call is one operation with just the cycles that it asks for; Full only if nothing fits after one of its own.
//! Start with `making` and `freeing`, then `specs/TurnCalls.antt` and, for the bound, `specs/Bounds.antt`.
#![tactic(auto)]

mod cycles;
pub mod deed_laws;
mod freeing;
mod fulls;
mod gates;
pub mod laws;
mod looking;
pub mod lower;
mod making;
mod objects;
mod placing;
mod quarantine;
mod retirement;
mod rooms;
mod seeking;
mod targets;
mod turns;
mod unmapping;
mod wiping;

pub use freeing::free_object;
pub use making::{Full, new_object};
pub use objects::Request;
pub use placing::place_object;
pub use quarantine::quarantine_is_bounded;
pub use retirement::{Double, Freed, retire_object};
