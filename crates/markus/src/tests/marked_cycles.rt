//! A run that holds its script back in two cycles, until a marker has done its work there.

use super::paces::{MOST_YIELDS, writes};
use mk_outputs::lower::heaps::Pace;
use std::sync::atomic::{AtomicU64, Ordering};
use std::thread::yield_now;

/// How long a marker is left alone with a cycle: it finds then that there is nothing to do.
const YIELDS_ALONE: u64 = 100_000;

/// Two frees that are due. In the first cycle a register holds one object, and in the second one register each holds
/// one of two.
const TWO_CYCLES: &str =
    "heap 1 1/type A n*32/script s/ptr p A/ptr q A/new p A/free p/new q A/free q/show q/ -> \
    script s/ptr/";

/// Holds the script back after each free until the markers have scanned all cells that registers hold, and then leaves
/// them alone. How many cells were scanned by the end of each hold.
#[derive(Drop)]
struct Cycles {
    marked: AtomicU64,
    in_first: AtomicU64,
    in_both: AtomicU64,
}

impl Cycles {
    fn new() -> Cycles {
        Cycles {
            marked: AtomicU64::new(0),
            in_first: AtomicU64::new(0),
            in_both: AtomicU64::new(0),
        }
    }

    /// How many cells are scanned when these many are awaited.
    fn marked_behind(&self, cells: u64) -> u64 {
        for _yield in 0..MOST_YIELDS {
            if self.marked.load(Ordering::SeqCst) >= cells {
                break;
            }
            yield_now();
        }
        for _yield in 0..YIELDS_ALONE {
            yield_now();
        }
        self.marked.load(Ordering::SeqCst)
    }
}

impl Pace for Cycles {
    fn before(&self, _script: u64, instruction: u64) {
        if instruction == 2 {
            self.in_first.store(self.marked_behind(1), Ordering::SeqCst);
        } else if instruction == 4 {
            self.in_both.store(self.marked_behind(3), Ordering::SeqCst);
        }
    }

    fn answered(&self, _script: u64, _instruction: u64) {}

    fn marked(&self, marker: u64) {
        if marker == 0 {
            self.marked.fetch_add(1, Ordering::SeqCst);
        }
    }
}

/// There is one `marked` for each cell that a marker scanned, and no other; and the marker goes on in the next cycle,
/// though it found nothing to do before.
#[test]
fn a_marker_marks_in_each_cycle(rt: HostRuntime) {
    let cycles = Cycles::new();
    let found = writes(&rt, rt.alloc(), "run --markers 1", TWO_CYCLES, &cycles);
    assert!(rt; found == Some(true));
    let in_first = cycles.in_first.load(Ordering::SeqCst);
    assert_eq!(rt; (in_first, cycles.in_both.load(Ordering::SeqCst)), (1, 3));
}
