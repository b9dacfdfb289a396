//! Which frees are due, on one page of 32 objects.

use crate::runs::{printed, run_of};
use mk_run::lower::cycles::StopEngine;
use mk_run::lower::heaps::NoPace;
use std::alloc::Global;
use std::sync::Wait;
use std::thread::Threads;

/// A script that creates some objects of two words, keeps each in a global of its own, and then frees some of them
/// and the last of these once more.
fn text_of(alloc: Global, objects: u64, frees: u64) -> Option<String> {
    let mut text = String::from_str(alloc, "heap 1 1\ntype A n*2\n").ok()?;
    numbered(&mut text, "global g", " A\n", objects)?;
    text.push_str("script s\nptr p A\nptr q A\n").ok()?;
    numbered(&mut text, "new p A\nstoreg p g", "\n", objects)?;
    text.push_str("new q A\nshow q\n").ok()?;
    numbered(&mut text, "loadg p g", "\nfree p\n", frees)?;
    text.push_str("free p\n").ok()?;
    Some(text)
}

/// Writes the numbers from 0, each between these texts.
fn numbered(text: &mut String, before: &str, after: &str, count: u64) -> Option<()> {
    for number in 0..count {
        write!(text, "{before}{number}{after}").ok()?;
    }
    Some(())
}

/// Whether of 32 objects so many are freed, with so many cycles and fresh words at the end, and this is printed.
fn frees<R: Threads + Wait + Sync>(
    rt: &R,
    alloc: Global,
    count: u64,
    counts: (u64, u64),
    expected: &str,
) -> Option<bool> {
    let text = text_of(alloc, 32, count)?;
    let outcome = run_of::<StopEngine, NoPace, R>(rt, alloc, text.as_str(), 0, &NoPace)?;
    let report = &outcome.report;
    let is_counted = (report.cycles, report.fresh) == counts && report.quarantined == count;
    Some(is_counted && printed(alloc, &outcome)?.as_slice() == expected.as_bytes())
}

/// A 33rd object doesn't fit, and a second free is refused. Of 64 words 16 are a quarter, so that the free of the ninth
/// object is due, and that of the eighth isn't. The cycle that a 33rd object makes is the first.
#[test]
fn the_ninth_of_32_frees_is_due(rt: HostRuntime) {
    let eight = "script s\n102: full\nnull\n120: double\n";
    assert!(rt; frees(&rt, rt.alloc(), 8, (1, 16), eight) == Some(true));
    let nine = "script s\n102: full\nnull\n122: double\n";
    assert!(rt; frees(&rt, rt.alloc(), 9, (2, 0), nine) == Some(true));
}
