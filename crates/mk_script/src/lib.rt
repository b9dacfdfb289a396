//! The script language: its items, the reader of its texts, and their canonical form.
//! `parse` accepts exactly the texts of the grammar, or reports the first wrong line; `print` is canonical.
//! Start with `items`, then `specs/Grammar.antt`.
#![tactic(auto)]

mod faults;
mod fields;
mod forms;
mod items;
mod keywords;
pub mod laws;
mod limits;
mod line;
mod name_set;
mod names;
mod numbers;
mod operands;
mod parsing;
mod printer;
mod printing;
mod program;
mod scope;
mod sorts;
mod splitting;
mod taking;

pub use faults::{LineFault, TEXT_LIMIT, TOO_LONG, TextKind, TextStop, Which};
pub use items::{At, Item, TypeWord, TypeWords};
pub use limits::{at_most, heap_limit, within};
pub use names::Name;
pub use numbers::parse_number;
pub use parsing::parse;
pub use printing::print;
pub use program::Program;
pub use sorts::{Sort, declared_name, is_declaration};
pub use splitting::{replace_words, split_lines, split_words};
