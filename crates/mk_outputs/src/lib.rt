//! The command line, the generator, what each command writes, and with which status the program ends.
//! `command_in` finds the command that the words are; `output_of` gives all of its output at once, or the refusal.
//! Start with `commands` and `specs/Commands.antt`, then `outputs` and `specs/Outputs.antt`.
#![tactic(auto)]

mod arguments;
mod commands;
mod draws;
mod generating;
mod kept_text;
pub mod laws;
pub mod lower;
mod names;
mod outputs;
mod pieces;
mod replays;
mod report_text;
mod running;
mod statuses;
mod summing;
mod text;
mod texts;
mod traces;
mod words;

pub use commands::{Command, Marking, Options, Request, TextCommand};
pub use generating::generate;
pub use outputs::{Output, output_of};
pub use statuses::Status;
pub use words::command_in;
