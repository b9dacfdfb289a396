//! Marks from the roots: the registers and the globals.
ghost use Rattle.std.specs.Prelude.{◌≡◌, ℕ, ◌+◌, ◌<◌, ◌≤◌, true, slice_index};
ghost use Rattle.mk_core.specs.{Cells.points_well, Conditions.is_word, Words.named_word};
ghost use Rattle.mk_cycle.specs.Grays.{GlobalIsWell, LooksOn, RegistersAreWell, RootsPointWell, listed};
ghost use Rattle.mk_cycle.specs.{Grays.MarksAndNotes, Stops.{MayTrace, is_root, still_words}};

use crate::noting::mark_address;
use crate::stepping::look_at_root;
use crate::tables::Table;
use crate::worklist::Worklist;
use mk_core::Word;
use mk_geom::HEAP_START;
use mk_words::Stopped;

/// How many registers a caller has.
pub const REGISTERS: u64 = 8;

pub const GLOBALS: u64 = 64;

/// The globals are groups of this many, which are looked at together.
const GROUP: u64 = 8;

const GROUPS: u64 = GLOBALS / GROUP;

/// Looks at a root, and marks what its value points into. Most are null.
#[inline(always)]
fn mark_root(table: Table, stop: &mut Stopped, work: &mut Worklist, x: Word)
    requires may { MayTrace table.words.now stop.old.pass }
    requires word { is_word table.words.now.config x ≡ true }
    requires root { is_root x ≡ true }
    ensures marks { MarksAndNotes table.entry.pages stop.old (listed work.old) stop.new (listed work.new) }
    ensures well { points_well table.entry.pages (still_words stop.new.pass)
        (named_word (still_words stop.old.pass) x) ≡ true }
{
    let value = look_at_root(table, stop, x);
    mark_address(table, stop, work, value);
}

/// Marks what a caller's registers point into.
fn mark_registers_of(table: Table, stop: &mut Stopped, work: &mut Worklist, caller: u64)
    requires may { MayTrace table.words.now stop.old.pass }
    requires caller { caller < table.words.now.config.callers }
    ensures marks { MarksAndNotes table.entry.pages stop.old (listed work.old) stop.new (listed work.new) }
    ensures well { RegistersAreWell table.entry.words.now.config stop.old.pass stop.new.pass caller }
{
    for register in 0..REGISTERS {
        mark_root(table, stop, work, Word::Reg { caller, register });
    }
}

/// Marks what the registers of all callers point into.
fn mark_registers(table: Table, stop: &mut Stopped, work: &mut Worklist)
    requires may { MayTrace table.words.now stop.old.pass }
    ensures marks { MarksAndNotes table.entry.pages stop.old (listed work.old) stop.new (listed work.new) }
    ensures well { (k : ℕ) → k < table.entry.words.now.config.callers
        → RegistersAreWell table.entry.words.now.config stop.old.pass stop.new.pass k }
{
    for caller in 0..table.words.callers() {
        mark_registers_of(table, stop, work, caller);
    }
}

/// Looks at a group of globals, from this one on. Returns true only if all are before the heap, as null is.
fn are_before_heap(table: Table, stop: &mut Stopped, first: u64) -> bool
    requires may { MayTrace table.words.now stop.old.pass }
    requires group { first + 8 ≤ 64 }
    ensures looks { LooksOn stop.old stop.new }
    ensures before { result ≡ true → (i : ℕ) → i < 8
        → slice_index (still_words stop.old.pass).globals (first + i) < 65536 }
{
    let mut all = 0;
    for i in 0..GROUP {
        all |= look_at_root(table, stop, Word::Global(first + i));
    }
    all < HEAP_START
}

/// Marks what a group of globals points into, from this one on. Most are null, so they are looked at together first.
fn mark_group(table: Table, stop: &mut Stopped, work: &mut Worklist, first: u64)
    requires may { MayTrace table.words.now stop.old.pass }
    requires group { first + 8 ≤ 64 }
    ensures marks { MarksAndNotes table.entry.pages stop.old (listed work.old) stop.new (listed work.new) }
    ensures well { (i : ℕ) → i < 8 → GlobalIsWell table.entry.words.now.config stop.old.pass stop.new.pass (first + i) }
{
    if are_before_heap(table, stop, first) {
        return;
    }
    for i in 0..GROUP {
        mark_root(table, stop, work, Word::Global(first + i));
    }
}

/// Marks what the globals point into.
fn mark_globals(table: Table, stop: &mut Stopped, work: &mut Worklist)
    requires may { MayTrace table.words.now stop.old.pass }
    ensures marks { MarksAndNotes table.entry.pages stop.old (listed work.old) stop.new (listed work.new) }
    ensures well { (g : ℕ) → g < 64 → GlobalIsWell table.entry.words.now.config stop.old.pass stop.new.pass g }
{
    for group in 0..GROUPS {
        mark_group(table, stop, work, GROUP * group);
    }
}

/// Marks what the roots point into: the registers of all callers, and the globals. Of a group of globals that aren't
/// all before the heap each is looked at once more, and marked before the next. What is marked is noted.
pub(crate) fn mark_roots(table: Table, stop: &mut Stopped, work: &mut Worklist)
    requires may { MayTrace table.words.now stop.old.pass }
    ensures marks { MarksAndNotes table.entry.pages stop.old (listed work.old) stop.new (listed work.new) }
    ensures roots { RootsPointWell table.entry.pages (still_words stop.new.pass) }
{
    mark_registers(table, stop, work);
    mark_globals(table, stop, work);
}
