//! Markers on threads of their own, beside scripts that store into their lists.

use crate::runs::{lines, printed, run_of};
use mk_run::lower::cycles::MostlyEngine;
use mk_run::lower::heaps::Pace;
use std::alloc::Global;
use std::sync::Wait;
use std::sync::atomic::{AtomicBool, Ordering};
use std::thread::{Threads, yield_now};

/// Two scripts, each with a list of 1,000 objects. `a` frees others until a cycle is on. Then each walks along its list
/// and stores each pointer again, and at last adds up the numbers from 0 to 999.
const LISTS: &str = "\
heap 200 200/type N n p:N/type G n*32/\
    script a/ptr h N/ptr x N/ptr y N/ptr g G/num n/num one/num sum/const one 1/\
    repeat 1000/new x N/setn x 0 n/add n n one/setp x 1 h/move h x/end/\
    repeat 100/new g G/free g/end/\
    move x h/repeat 1000/getp y x 1/setp x 1 y/move x y/end/\
    move x h/repeat 1000/getn n x 0/add sum sum n/getp x x 1/end/print sum/\
    script b/ptr h N/ptr x N/ptr y N/num n/num one/num sum/const one 1/\
    repeat 1000/new x N/setn x 0 n/add n n one/setp x 1 h/move h x/end/\
    move x h/repeat 1000/getp y x 1/setp x 1 y/move x y/end/\
    move x h/repeat 1000/getn n x 0/add sum sum n/getp x x 1/end/print sum/";

/// Whether this is the last instruction of a script's walk, counted from 0: after 4 for each object, 2 for each that is
/// freed, one, and 3 for each step.
fn ends_a_walk(script: u64, instruction: u64) -> bool {
    match script {
        0 => instruction == 7200,
        _ => instruction == 7000,
    }
}

/// How often a script waits for a marker.
const MOST_YIELDS: u64 = 10_000_000;

/// Holds the end of each walk back until a marker scanned a cell.
#[derive(Drop)]
struct UntilMarked {
    worked: AtomicBool,
    in_vain: AtomicBool,
}

impl Pace for UntilMarked {
    fn before(&self, script: u64, instruction: u64) {
        if !ends_a_walk(script, instruction) {
            return;
        }
        for _yield in 0..MOST_YIELDS {
            if self.worked.load(Ordering::SeqCst) {
                return;
            }
            yield_now();
        }
        self.in_vain.store(true, Ordering::SeqCst);
    }

    fn answered(&self, _script: u64, _instruction: u64) {}

    fn marked(&self, _marker: u64) {
        self.worked.store(true, Ordering::SeqCst);
    }
}

/// Whether the scripts print their sums while there is a cycle, if memory suffices.
fn sums_are_printed<R: Threads + Wait + Sync>(
    rt: &R,
    alloc: Global,
    pace: &UntilMarked,
) -> Option<bool> {
    let text = lines(alloc, LISTS)?;
    let outcome = run_of::<MostlyEngine, UntilMarked, R>(rt, alloc, text.as_str(), 2, pace)?;
    let expected = b"script a\n499500\nscript b\n499500\n".as_slice();
    Some(printed(alloc, &outcome)?.as_slice() == expected && outcome.report.cycles > 0)
}

#[test]
fn markers_work_beside_stores_to_lists(rt: HostRuntime) {
    let pace = UntilMarked {
        worked: AtomicBool::new(false),
        in_vain: AtomicBool::new(false),
    };
    assert!(rt; sums_are_printed(&rt, rt.alloc(), &pace) == Some(true));
    assert!(rt; !pace.in_vain.load(Ordering::SeqCst));
}
