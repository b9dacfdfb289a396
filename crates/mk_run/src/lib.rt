//! The run of a program: each script on a thread of its own, with markers beside them.
//! Its replies stand in one history of a heap that never reuses storage: `StandsInOneHistory` (`specs/Headline.antt`).
//! Start with `running`, then `scripts`; `joining` and `marking` start the threads.
#![tactic(auto)]

mod joining;
pub mod laws;
pub mod lower;
mod marking;
mod outcomes;
mod ready;
mod running;
mod runs;
mod scripts;
mod why;

pub use outcomes::Outcome;
pub use ready::ReadyScript;
pub use running::run_all;
pub use scripts::run_script;
pub use why::run_why;
