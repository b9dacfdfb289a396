//! What is called before and after the instructions of scripts: tests hold threads back by it.

/// Is called before and after each memory instruction of a script, counted from 0 in its script, and after each cell
/// that a marker scanned.
pub trait Pace {
    /// Before the instruction is carried out.
    fn before(&self, script: u64, instruction: u64);

    /// When it is answered.
    fn answered(&self, script: u64, instruction: u64);

    /// When a marker scanned a cell.
    fn marked(&self, marker: u64);
}

/// Does nothing.
#[derive(Clone, Copy)]
pub struct NoPace;

impl Pace for NoPace {
    fn before(&self, script: u64, instruction: u64) {}

    fn answered(&self, script: u64, instruction: u64) {}

    fn marked(&self, marker: u64) {}
}
