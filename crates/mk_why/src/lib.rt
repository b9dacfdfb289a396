//! An engine round another that reports why freed objects are kept: which root leads to each, and through which words.
//! Each entry is a freed object that the cycle keeps, with a shortest chain to it.
//! Start with `why`, then `specs/Chains.antt`.
#![tactic(auto)]

mod entries;
mod found;
mod kept;
mod laws;
mod lazy_table;
mod listing;
pub mod lower;
mod searching;
mod stepping;
mod tables;
mod values;
mod why;

pub use kept::{Kept, Root};
pub use laws::chains_lead_to_what_is_swept;
pub use why::Why;
