//! A run of the program on sources and sinks in memory.

use crate::top::markus;
use mk_io::{MemSink, MemSource};
use mk_outputs::Status;
use mk_outputs::lower::heaps::{NoPace, Pace};
use std::alloc::Global;
use std::sync::Wait;
use std::thread::Threads;

/// A run: its words, with spaces between them, and its text; and of its source and of its sink, how many bytes a call
/// moves at most, and the numbers of the calls that fail.
#[derive(Clone, Copy)]
pub struct Case<'a> {
    pub words: &'a str,
    pub text: &'a [u8],
    pub source: (usize, &'a [u64]),
    pub sink: (usize, &'a [u64]),
}

/// A run where nothing fails.
pub fn ample<'a>(words: &'a str, text: &'a [u8]) -> Case<'a> {
    Case {
        words,
        text,
        source: (4096, &[]),
        sink: (4096, &[]),
    }
}

/// How a run ended: its status, the line that is reported for that, and what was written.
#[derive(Drop)]
pub struct Ended {
    pub status: Status,
    pub told: Vec<u8>,
    pub written: Vec<u8>,
}

impl Ended {
    /// Whether just this is reported and written.
    pub fn is(&self, told: &str, written: &str) -> bool {
        self.told.as_slice() == told.as_bytes() && self.written.as_slice() == written.as_bytes()
    }
}

fn words_of(alloc: Global, case: &Case) -> Option<Vec<String>> {
    let mut words = Vec::new(alloc);
    for word in case.words.split_whitespace() {
        words.push(String::from_str(alloc, word).ok()?).ok()?;
    }
    Some(words)
}

fn source_of(alloc: Global, case: &Case) -> Option<MemSource> {
    let (chunk, fails) = case.source;
    let text = case.text.to_vec(alloc).ok()?;
    Some(MemSource::new(text, chunk.max(1), fails.to_vec(alloc).ok()?))
}

fn sink_of(alloc: Global, case: &Case) -> Option<MemSink> {
    let (chunk, fails) = case.sink;
    let mut sink = MemSink::new(alloc, chunk.max(1), fails.to_vec(alloc).ok()?);
    sink.reserve(4096).ok()?;
    Some(sink)
}

/// What the program answers. The tests know none of its clauses.
fn status_of<P: Pace + Sync, R: Threads + Wait + Sync>(
    rt: &R,
    alloc: Global,
    words: &[String],
    source: &mut MemSource,
    sink: &mut MemSink,
    pace: &P,
) -> Status {
    markus(rt, alloc, words, source, sink, pace)
}

/// How the run of a case ends at a pace, if memory suffices for what the test keeps of it.
pub fn run_at<P: Pace + Sync, R: Threads + Wait + Sync>(
    rt: &R,
    alloc: Global,
    case: &Case,
    pace: &P,
) -> Option<Ended> {
    let words = words_of(alloc, case)?;
    let mut source = source_of(alloc, case)?;
    let mut sink = sink_of(alloc, case)?;
    let status = status_of(rt, alloc, &words, &mut source, &mut sink, pace);
    Some(Ended {
        status,
        told: status.text(alloc).ok()?,
        written: sink.bytes().to_vec(alloc).ok()?,
    })
}

/// How the run of a case ends.
pub fn run<R: Threads + Wait + Sync>(rt: &R, alloc: Global, case: &Case) -> Option<Ended> {
    run_at(rt, alloc, case, &NoPace)
}
