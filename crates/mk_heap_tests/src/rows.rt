//! Small programs with what they print, on heaps of both engines that trace: `MostlyEngine` has no markers here, so it
//! makes all marks but those of the roots in the stop.

use crate::runs::{lines, printed, run_of};
use mk_run::lower::cycles::{Engine, MostlyEngine, StopEngine};
use mk_run::lower::heaps::NoPace;
use std::alloc::Global;
use std::sync::Wait;
use std::thread::Threads;

/// A name, a program, with `/` for a newline, and what it prints. The addresses are numbers in a word beside a pointer,
/// around the first cell of the heap.
const ROWS: &str = "\
a freed object is kept as long as a register points to it | \
    heap 1 1/type A n*32/script s/ptr p A/ptr q A/ptr r A/num n/new p A/new q A/free p/free q/new r A/clear p/new r A/\
    show r/same n r q/print n/ -> script s/12: full/ptr/0/
the pages of a freed run are kept as long as a register points to it | \
    heap 4 2/type B n*65/script s/ptr p B/ptr q B/ptr r B/num n/new p B/free p/getn n p 0/print n/new q B/show q/\
    free q/new r B/clear p/new r B/show r/ -> script s/10: fault/0/ptr/15: full/ptr/
a number in an object without pointers is no pointer | \
    heap 1 1/type A n*32/script s/ptr p A/ptr q A/ptr r A/num n/new p A/new q A/const n 65536/setn q 0 n/free p/\
    clear p/new r A/show r/ -> script s/ptr/
an address below the heap is no pointer | \
    heap 1 1/type A p:A n*31/script s/ptr p A/ptr q A/ptr r A/num n/new p A/new q A/const n 65535/setn q 1 n/free p/\
    clear p/new r A/show r/ -> script s/ptr/
an address at the beginning of a cell is a pointer | \
    heap 1 1/type A p:A n*31/script s/ptr p A/ptr q A/ptr r A/num n/new p A/new q A/const n 65536/setn q 1 n/free p/\
    clear p/new r A/show r/ -> script s/14: full/null/
an address at the end of a cell is a pointer | \
    heap 1 1/type A p:A n*31/script s/ptr p A/ptr q A/ptr r A/num n/new p A/new q A/const n 65791/setn q 1 n/free p/\
    clear p/new r A/show r/ -> script s/14: full/null/
an address after the cell is no pointer to it | \
    heap 1 1/type A p:A n*31/script s/ptr p A/ptr q A/ptr r A/num n/new p A/new q A/const n 65792/setn q 1 n/free p/\
    clear p/new r A/show r/ -> script s/ptr/
an address after the heap is no pointer | \
    heap 1 1/type A p:A n*31/script s/ptr p A/ptr q A/ptr r A/num n/new p A/new q A/const n 66048/setn q 1 n/free p/\
    clear p/new r A/show r/ -> script s/ptr/
a ring of two freed objects is released | \
    heap 1 1/type A p:A n*31/script s/ptr p A/ptr q A/new p A/new q A/setp p 0 q/setp q 0 p/free p/free q/clear p/\
    clear q/new p A/new q A/show p/show q/ -> script s/ptr/ptr/
a pointer to the last word of an object keeps it | \
    heap 1 1/type A n*32/script s/ptr p A/ptr i A+31/ptr q A/ptr r A/new p A/new q A/lea i p 31/free p/clear p/new r A/\
    clear i/new r A/show r/ -> script s/13: full/ptr/
";

/// Whether the program of a row prints what the row says, if it is a program, and memory suffices.
fn prints<E: Engine + Send, R: Threads + Wait + Sync>(
    rt: &R,
    alloc: Global,
    row: &str,
) -> Option<bool> {
    let row = lines(alloc, row)?;
    let (_name, row) = row.split_once(" | ")?;
    let (text, expected) = row.split_once(" -> ")?;
    let outcome = run_of::<E, NoPace, R>(rt, alloc, text, 0, &NoPace)?;
    Some(printed(alloc, &outcome)?.as_slice() == expected.as_bytes())
}

#[test]
fn engines_that_trace_release_what_is_not_reached(rt: HostRuntime) {
    for row in ROWS.lines() {
        let mostly = prints::<MostlyEngine, HostRuntime>(&rt, rt.alloc(), row);
        let stop = prints::<StopEngine, HostRuntime>(&rt, rt.alloc(), row);
        assert!(rt; (mostly, stop) == (Some(true), Some(true)), "{row}");
    }
}
