//! What holds of every history of a heap: lemmas, with no code.
//! All promises of a history are one record (`specs/Promises.antt`), proved in one induction.
//! Start with `theorem_laws`. The induction, a group of facts each, is in `proofs/`: `Invariant` joins the groups.
#![tactic(auto)]

pub mod frame_laws;
pub mod placement_laws;
pub mod precision_laws;
pub mod reading_laws;
pub mod theorem_laws;
pub mod waiting_laws;
