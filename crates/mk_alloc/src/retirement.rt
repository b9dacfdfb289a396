//! Freeing the object of a Free under the turn: it is quarantined, and counted.
ghost use Rattle.std.specs.Prelude.{◌≡◌, ℕ, ◌<◌, true, false, IfOk, OnErr, Some, option_map};
ghost use Rattle.mk_geom.specs.Addresses.{header_of};
ghost use Rattle.mk_core.specs.{Cells.{header_in, heads_run, run_headed, words_under}, Counts.TalliesAreExact};
ghost use Rattle.mk_core.specs.{Moments.{none_is_held, nothing_done}, Words.header_at};
ghost use Rattle.mk_caller.specs.Below.Words.States.{call_of, now_of};
ghost use Rattle.mk_alloc.specs.FreeParts.{FreesCell, MayFreeOn};
ghost use Rattle.mk_alloc.specs.FreeParts.{HasRunAt, HoldsOthers, SetsTally, run_on};
ghost use Rattle.mk_alloc.specs.{Placing.{is_acting, IsOutOfStop}, Retiring.{FindsFreed, Retires}};
ghost use Rattle.mk_alloc.specs.Retiring.{IsUnloaded};

use crate::looking::look_at;
use crate::targets::{Target, find_cell, is_freed, load_freed, look_at_quarantine, quarantine};
use crate::unmapping::clear_run;
use mk_caller::lower::words::{Turn, Words};
use mk_core::lower::books::due;
use mk_core::{RunPages, Tally, Word, words_under};
use mk_cycle::hold_gates;
use mk_geom::{Cell, Header, PAGE_WORDS, decode};
use std::sync::Wait;
use std::thread::Threads;

/// What a free reports: whether a cycle is due.
#[derive(Clone, Copy, Debug, PartialEq, Eq)]
pub struct Freed {
    pub due: bool,
}

/// The object is freed already.
#[derive(Clone, Copy, Debug, PartialEq, Eq)]
pub struct Double;

/// Sets a tally.
fn set_tally(words: &Words, turn: &mut Turn, tally: Tally, value: u64)
    requires one_table { turn.old.pass.table ≡ words.now }
    requires acting { is_acting (call_of turn.old.pass).stage ≡ true }
    ensures { SetsTally turn.old.pass tally value turn.new.pass }
{
    turn.tally(words, tally, value);
}

/// Frees an object that takes a cell of a block, of this many words, and returns whether that is due.
fn free_small(words: &Words, turn: &mut Turn, cell: Cell, quar: u64, size: u64) -> bool
    requires free { MayFreeOn words.now turn.old.pass cell quar }
    requires gates { none_is_held turn.old.pass.table.config.callers (now_of turn.old.pass).words ≡ true }
    requires small { heads_run (header_in (now_of turn.old.pass).words cell.page) ≡ false }
    requires size { size ≡ words_under (header_in (now_of turn.old.pass).words cell.page) }
    ensures { FreesCell turn.old.pass cell result turn.new.pass }
{
    quarantine(words, turn, cell, quar);
    let fresh = look_at(words, turn, Word::Fresh).saturating_add(size);
    set_tally(words, turn, Tally::Fresh, fresh);
    let held = look_at(words, turn, Word::Held);
    due(fresh, held)
}

/// Frees a large object, whose run has this many pages, while the gates of all other callers are held, and opens them.
/// Returns whether that is due.
fn free_stopped(words: &Words, turn: &mut Turn, cell: Cell, quar: u64, count: u64) -> bool
    requires free { MayFreeOn words.now turn.old.pass cell quar }
    requires held { HoldsOthers turn.old.pass }
    requires run { HasRunAt turn.old.pass cell.page count }
    ensures { FreesCell turn.old.pass cell result turn.new.pass }
{
    quarantine(words, turn, cell, quar);
    clear_run(
        words,
        turn,
        RunPages {
            page: cell.page,
            count,
        },
    );
    let held = look_at(words, turn, Word::Held) - PAGE_WORDS * count;
    set_tally(words, turn, Tally::Held, held);
    let fresh = look_at(words, turn, Word::Fresh);
    due(fresh, held)
}

/// Frees a large object, whose run has this many pages, once all other callers are in no call. Returns whether a cycle
/// is due.
#[inline(never)]
fn free_run<R: Wait>(
    rt: &R,
    words: &Words,
    turn: &mut Turn,
    cell: Cell,
    quar: u64,
    count: u64,
) -> bool
    requires free { MayFreeOn words.now turn.old.pass cell quar }
    requires gates { none_is_held turn.old.pass.table.config.callers (now_of turn.old.pass).words ≡ true }
    requires run { HasRunAt turn.old.pass cell.page count }
    ensures { FreesCell turn.old.pass cell result turn.new.pass }
{
    hold_gates(rt, words, turn);
    free_stopped(words, turn, cell, quar, count)
}

/// How many pages the run has that is headed under this header word.
fn run_under(header: u64) -> Option<u64>
    ensures { (page : ℕ) → run_headed (header_of header) page ≡ option_map (run_on page) result }
{
    match decode(header) {
        Some(Header::Run { pages, .. } | Header::LeafRun { pages }) => Some(pages),
        _ => None,
    }
}

/// Frees the object whose cell was found, and returns whether that is due.
fn free_found<R: Wait>(rt: &R, words: &Words, turn: &mut Turn, target: Target, quar: u64) -> bool
    requires free { MayFreeOn words.now turn.old.pass target.cell quar }
    requires gates { none_is_held turn.old.pass.table.config.callers (now_of turn.old.pass).words ≡ true }
    requires header { target.header ≡ header_at (now_of turn.old.pass).words target.cell.page }
    ensures { FreesCell turn.old.pass target.cell result turn.new.pass }
{
    let Target { cell, header } = target;
    match run_under(header) {
        Some(count) => free_run(rt, words, turn, cell, quar, count),
        None => {
            let size = words_under(header);
            free_small(words, turn, cell, quar, size)
        }
    }
}

/// Frees the object that a register points to: it is quarantined, and if it is large its pages are unmapped and its
/// words wiped while all other callers are in no call. If the register is null nothing is freed. An object that is
/// freed already is refused as `Double`.
pub fn retire_object<R: Threads + Wait + Sync>(
    rt: &R,
    words: &Words,
    turn: &mut Turn,
    p: u8,
) -> Result<Freed, Double>
    requires one_table { turn.old.pass.table ≡ words.now }
    requires unloaded { IsUnloaded turn.old.pass p }
    requires phase { IsOutOfStop (now_of turn.old.pass) }
    requires nothing_done { (now_of turn.old.pass).seats.holding ≡ nothing_done }
    requires gates { none_is_held turn.old.pass.table.config.callers (now_of turn.old.pass).words ≡ true }
    requires exact { TalliesAreExact turn.old.pass.table.config turn.old.pass.seen }
    ensures freed { IfOk result (λ freed. Retires turn.old.pass p freed.due turn.new.pass) }
    ensures double { OnErr result (FindsFreed turn.old.pass p turn.new.pass) }
{
    let value = load_freed(words, turn, p);
    if value == 0 {
        return Ok(Freed { due: false });
    }
    let target = find_cell(words, turn, value);
    let quar = look_at_quarantine(words, turn, target.cell);
    if is_freed(quar, target.cell) {
        return Err(Double);
    }
    let due = free_found(rt, words, turn, target, quar);
    Ok(Freed { due })
}
