//! Runs of texts, with an engine and a pace of one's own.

use mk_check::check;
use mk_run::lower::cycles::Engine;
use mk_run::lower::heaps::Pace;
use mk_run::{Outcome, run_all};
use mk_script::parse;
use std::alloc::Global;
use std::sync::Wait;
use std::thread::Threads;

/// The text with a newline for each `/`.
pub fn lines(alloc: Global, text: &str) -> Option<String> {
    text.replace(alloc, "/", "\n").ok()
}

/// The run of a text with at most 8 markers, if it is that of a program and memory suffices.
pub fn run_of<E: Engine + Send, P: Pace + Sync, R: Threads + Wait + Sync>(
    rt: &R,
    alloc: Global,
    text: &str,
    markers: u64,
    pace: &P,
) -> Option<Outcome> {
    let program = parse(alloc, text.as_bytes()).ok()?;
    let program = check(alloc, program).ok()?;
    run_all::<E, P, R>(rt, alloc, &program, markers.min(8), pace).ok()
}

/// What all scripts printed, if memory suffices.
pub fn printed(alloc: Global, outcome: &Outcome) -> Option<Vec<u8>> {
    let mut bytes = Vec::new(alloc);
    for text in &outcome.texts {
        bytes.extend_from_slice(&text.bytes).ok()?;
    }
    Some(bytes)
}
