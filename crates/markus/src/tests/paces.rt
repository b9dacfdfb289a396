//! Runs that hold instructions back until others came to their place: so scripts and markers are on threads of their
//! own.

use super::runs::{ample, run_at};
use super::tables::{Asks, all_hold, lines};
use mk_outputs::lower::heaps::Pace;
use std::alloc::Global;
use std::sync::Wait;
use std::sync::atomic::{AtomicBool, AtomicU64, Ordering};
use std::thread::{Threads, yield_now};

/// How often one waits for a moment that doesn't come.
pub(super) const MOST_YIELDS: u64 = 10_000_000;

/// When a pace is called: an instruction is about to run, or is answered, or a marker scanned a cell.
#[derive(Clone, Copy, PartialEq, Eq)]
enum Moment {
    Before,
    Answered,
    Marked,
}

/// An instruction of a script, counted from 0.
#[derive(Clone, Copy)]
struct Place {
    script: u64,
    instruction: u64,
}

/// Holds a script back at a moment of an instruction until another moment came, of the other instruction. Whether it
/// came, whether the script was held, and whether it was in vain.
#[derive(Drop)]
struct Hold {
    at: Moment,
    held: Place,
    until: Moment,
    other: Place,
    came: AtomicBool,
    was_held: AtomicBool,
    in_vain: AtomicBool,
}

/// Waits for it to be set, and returns whether it was.
fn is_awaited(came: &AtomicBool) -> bool {
    for _yield in 0..MOST_YIELDS {
        if came.load(Ordering::SeqCst) {
            return true;
        }
        yield_now();
    }
    false
}

impl Hold {
    /// Holds an instruction back before it runs.
    fn new(held: Place, until: Moment, other: Place) -> Hold {
        Hold::at(Moment::Before, held, until, other)
    }

    fn at(at: Moment, held: Place, until: Moment, other: Place) -> Hold {
        Hold {
            at,
            held,
            until,
            other,
            came: AtomicBool::new(false),
            was_held: AtomicBool::new(false),
            in_vain: AtomicBool::new(false),
        }
    }

    /// Takes note of a moment of an instruction.
    fn note(&self, moment: Moment, script: u64, instruction: u64) {
        if moment == self.until
            && script == self.other.script
            && instruction == self.other.instruction
        {
            self.came.store(true, Ordering::SeqCst);
        }
    }

    fn hold_back(&self, moment: Moment, script: u64, instruction: u64) {
        if moment == self.at && script == self.held.script && instruction == self.held.instruction {
            self.was_held.store(true, Ordering::SeqCst);
            if !is_awaited(&self.came) {
                self.in_vain.store(true, Ordering::SeqCst);
            }
        }
    }

    /// Whether the script was held back, and the moment came.
    fn has_held(&self) -> bool {
        self.was_held.load(Ordering::SeqCst) && !self.in_vain.load(Ordering::SeqCst)
    }
}

impl Pace for Hold {
    fn before(&self, script: u64, instruction: u64) {
        self.note(Moment::Before, script, instruction);
        self.hold_back(Moment::Before, script, instruction);
    }

    fn answered(&self, script: u64, instruction: u64) {
        self.note(Moment::Answered, script, instruction);
        self.hold_back(Moment::Answered, script, instruction);
    }

    /// Whatever the instruction is.
    fn marked(&self, _marker: u64) {
        self.note(Moment::Marked, self.other.script, self.other.instruction);
    }
}

/// Two holds at once.
#[derive(Drop)]
struct Both {
    one: Hold,
    other: Hold,
}

impl Both {
    fn note_and_hold(&self, moment: Moment, script: u64, instruction: u64) {
        self.one.note(moment, script, instruction);
        self.other.note(moment, script, instruction);
        self.one.hold_back(moment, script, instruction);
        self.other.hold_back(moment, script, instruction);
    }

    fn have_held(&self) -> bool {
        self.one.has_held() && self.other.has_held()
    }
}

impl Pace for Both {
    fn before(&self, script: u64, instruction: u64) {
        self.note_and_hold(Moment::Before, script, instruction);
    }

    fn answered(&self, script: u64, instruction: u64) {
        self.note_and_hold(Moment::Answered, script, instruction);
    }

    fn marked(&self, marker: u64) {
        self.one.marked(marker);
        self.other.marked(marker);
    }
}

fn at_instruction(script: u64, instruction: u64) -> Place {
    Place {
        script,
        instruction,
    }
}

/// Three scripts of two instructions each, and after ` -> ` what they print.
const THREE: &str =
    "heap 1 1/type A n/script a/ptr p A/new p A/show p/script b/ptr p A/new p A/show p/\
    script c/ptr p A/new p A/show p/ -> script a/ptr/script b/ptr/script c/ptr/";

/// A load of a global after a store to it, and before it.
const LOAD_BEHIND: &str = "heap 1 1/type A n/global g A/script a/ptr p A/new p A/storeg p g/\
    script b/ptr q A/loadg q g/show q/ -> script a/script b/ptr/";

const LOAD_BEFORE: &str = "heap 1 1/type A n/global g A/script a/ptr p A/new p A/storeg p g/\
    script b/ptr q A/loadg q g/show q/ -> script a/script b/null/";

/// A load of a global while the script of a store to it is held at the answer, and before the store.
const LOAD_WHILE_ANSWERED: &str =
    "heap 1 1/type A n/global g A/script a/ptr p A/new p A/storeg p g/script b/ptr q A/ptr r A/\
    new r A/loadg q g/new r A/show q/ -> script a/script b/ptr/";

const LOAD_WHILE_TO_COME: &str =
    "heap 1 1/type A n/global g A/script a/ptr p A/new p A/storeg p g/script b/ptr q A/ptr r A/\
    new r A/loadg q g/new r A/show q/ -> script a/script b/null/";

/// A free that is due.
const DUE: &str = "heap 1 1/type A n*32/script s/ptr p A/new p A/free p/show p/ -> script s/ptr/";

/// Whether a run writes what the row says.
pub(super) fn writes<P: Pace + Sync, R: Threads + Wait + Sync>(
    rt: &R,
    alloc: Global,
    words: &str,
    row: &str,
    pace: &P,
) -> Option<bool> {
    let row = lines(alloc, row)?;
    let (text, written) = row.split_once(" -> ")?;
    Some(run_at(rt, alloc, &ample(words, text.as_bytes()), pace)?.is("", written))
}

/// Whether it does so while an instruction is held back, and the moment for which it waits comes.
fn writes_held<R: Threads + Wait + Sync>(
    rt: &R,
    alloc: Global,
    words: &str,
    row: &str,
    hold: Hold,
) -> bool {
    writes(rt, alloc, words, row, &hold) == Some(true) && hold.has_held()
}

/// Whether it does so while two instructions are.
fn writes_both_held<R: Threads + Wait + Sync>(
    rt: &R,
    alloc: Global,
    row: &str,
    one: Hold,
    other: Hold,
) -> bool {
    let both = Both { one, other };
    writes(rt, alloc, "run", row, &both) == Some(true) && both.have_held()
}

/// No order of whole scripts and no single thread ends these.
#[test]
fn scripts_run_beside_each_other(rt: HostRuntime) {
    let behind_the_other = Hold::new(at_instruction(1, 0), Moment::Answered, at_instruction(2, 0));
    assert!(rt; writes_held(&rt, rt.alloc(), "run", THREE, behind_the_other));
    let one = Hold::new(at_instruction(1, 1), Moment::Before, at_instruction(2, 1));
    let other = Hold::new(at_instruction(2, 1), Moment::Before, at_instruction(1, 1));
    assert!(rt; writes_both_held(&rt, rt.alloc(), THREE, one, other));
}

/// A load that comes after a store, or before it, is answered so.
#[test]
fn loads_are_answered_in_their_order(rt: HostRuntime) {
    let load_later = Hold::new(at_instruction(1, 0), Moment::Answered, at_instruction(0, 1));
    assert!(rt; writes_held(&rt, rt.alloc(), "run", LOAD_BEHIND, load_later));
    let store_later = Hold::new(at_instruction(0, 1), Moment::Answered, at_instruction(1, 0));
    assert!(rt; writes_held(&rt, rt.alloc(), "run", LOAD_BEFORE, store_later));
}

/// A store that is told as answered was made, and one that is about to run wasn't. The script of the load has an
/// instruction before it and one after it.
#[test]
fn a_pace_is_told_in_time(rt: HostRuntime) {
    let store = at_instruction(0, 1);
    let answered = Hold::new(at_instruction(1, 1), Moment::Answered, store);
    let held = Hold::at(
        Moment::Answered,
        store,
        Moment::Before,
        at_instruction(1, 2),
    );
    assert!(rt; writes_both_held(&rt, rt.alloc(), LOAD_WHILE_ANSWERED, answered, held));
    let held = Hold::at(
        Moment::Answered,
        at_instruction(1, 0),
        Moment::Before,
        store,
    );
    let about_to_run = Hold::new(store, Moment::Answered, at_instruction(1, 1));
    assert!(rt; writes_both_held(&rt, rt.alloc(), LOAD_WHILE_TO_COME, held, about_to_run));
}

/// The free begins a cycle that goes on after it, and what comes next waits until a marker scanned a cell.
#[test]
fn a_marker_marks_beside_a_script(rt: HostRuntime) {
    let scanned = Hold::new(at_instruction(0, 2), Moment::Marked, at_instruction(0, 2));
    assert!(rt; writes_held(&rt, rt.alloc(), "run --markers 1", DUE, scanned));
}

/// Counts the calls of each method.
#[derive(Drop)]
struct Counts {
    before: AtomicU64,
    answered: AtomicU64,
    marked: AtomicU64,
}

impl Counts {
    fn new() -> Counts {
        Counts {
            before: AtomicU64::new(0),
            answered: AtomicU64::new(0),
            marked: AtomicU64::new(0),
        }
    }
}

impl Pace for Counts {
    fn before(&self, _script: u64, _instruction: u64) {
        self.before.fetch_add(1, Ordering::SeqCst);
    }

    fn answered(&self, _script: u64, _instruction: u64) {
        self.answered.fetch_add(1, Ordering::SeqCst);
    }

    fn marked(&self, _marker: u64) {
        self.marked.fetch_add(1, Ordering::SeqCst);
    }
}

/// Words with which a program runs, each in another way.
const WAYS: &str = "\
run
run --sweep
run --why
run --sweep --why
run --markers 1
run --markers 1 --why
";

/// What a run that writes what the row says is told of instructions and of cells.
fn counted<R: Threads + Wait + Sync>(
    rt: &R,
    alloc: Global,
    words: &str,
    row: &str,
) -> Option<Counts> {
    let counts = Counts::new();
    if writes(rt, alloc, words, row, &counts)? {
        Some(counts)
    } else {
        None
    }
}

/// Whether a program that runs in this way is paced once for each instruction.
pub fn is_paced_once<R: Threads + Wait + Sync>(rt: &R, alloc: Global, row: &str) -> Option<bool> {
    let counts = counted(rt, alloc, row, THREE)?;
    let before = counts.before.load(Ordering::SeqCst);
    Some(before == 6 && counts.answered.load(Ordering::SeqCst) == 6)
}

/// A program runs once, whichever way: there is one `before` and one `answered` for each of the six instructions.
#[test]
fn each_instruction_is_paced_once(rt: HostRuntime) {
    all_hold(&rt, rt.alloc(), Asks::Way, WAYS);
}

/// Where there are no markers, none is told of.
#[test]
fn no_marker_marks_where_there_is_none(rt: HostRuntime) {
    let counts = counted(&rt, rt.alloc(), "run", DUE).expect(&rt, "what the row says");
    assert_eq!(rt; counts.marked.load(Ordering::SeqCst), 0);
}
