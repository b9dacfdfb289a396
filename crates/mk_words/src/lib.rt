//! The words that threads share, and the passes to them: each access is one event of one history.
//! Each step call reaches the word that its event names, and what it ensures holds whatever others do.
//! Start with `words`, `passes` and `turns`, then `specs/Rule.antt`: what is kept between any two steps.
#![tactic(auto)]

mod adding_up;
mod call_steps;
mod finals;
mod gates;
mod handing;
mod homes;
mod indexes;
mod laws;
mod map_reads;
mod marker_passes;
mod marker_steps;
mod passes;
mod patience;
mod performing;
mod pointing;
mod rule;
mod run_steps;
mod sleeping;
mod stop_steps;
mod stopped;
mod taking;
mod telling;
mod tokens;
mod turn_steps;
mod turns;
mod words;

pub use adding_up::{what_is_done_adds_up, what_sweeps_nothing_adds_up};
pub use call_steps::Held;
pub use finals::Final;
pub use gates::{AllHeld, AnyGates, Gates};
pub use laws::{calls_go_on, steps_stand_behind_others, the_end_is_behind_an_over};
pub use marker_passes::MarkerPass;
pub use passes::Pass;
pub use patience::Patience;
pub use pointing::cell_pointed;
pub use stop_steps::InCall;
pub use taking::{take_turn, taking_sweeps_nothing};
pub use turns::{Busy, Stopped, Turn, TurnAt};
pub use words::Words;
