//! Types of scripts, and what a script does, given the answers to its operations.
//! `check` accepts exactly the well-typed programs; a `Feed` asks for the next operation that the definition names.
//! Start with `checked` and `feeding`, then `specs/Feed.antt`: what a script does.
#![tactic(auto)]

mod checked;
mod checking;
mod declarations;
mod feeding;
pub mod laws;
mod lengths;
mod lookups;
mod name_table;
mod names;
mod numbering;
mod numbers;
mod places;
mod registers;
mod scripts;
mod text;
mod typing;
mod typing_faults;

pub use checked::{Checked, check};
pub use feeding::Feed;
pub use scripts::{ScriptLines, script_at};
pub use text::{Text, is_refusal};
pub use typing_faults::{TypeKind, TypeStop};
