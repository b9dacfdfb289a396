//! The target of a Free: its register is loaded, its cell found, and the cell quarantined.
ghost use Rattle.std.specs.Prelude.{◌≡◌, ◌<◌, ◌==◌, ◌%◌, ◌||◌, not, true, false, Some};
ghost use Rattle.mk_never.specs.declared.values.Value.TheVariants.{Null};
ghost use Rattle.mk_core.specs.{NewPlaces.target, Words.has_bit, Cells.{header_in, heads_run, is_freed}};
ghost use Rattle.mk_core.specs.{Moments.others_are_held, Words.{header_at, named_word}};
ghost use Rattle.mk_caller.specs.Below.Words.States.{call_of, now_of};
ghost use Rattle.mk_caller.specs.States.{value_of};
ghost use Rattle.mk_alloc.specs.{FreeParts.{FreesOnce, MayFreeOn}, Placing.OnlyLooks, Retiring.{HasFreed, HasLoaded}};
ghost use Rattle.mk_alloc.specs.Retiring.{HasSeen, IsLoaded, IsUnloaded, KeepsValues};
ghost use Rattle.mk_core.specs.declared.events.Word.TheVariants as word;

use crate::looking::look_at;
use mk_caller::lower::words::{Turn, Words};
use mk_core::{QuarantineWord, Word, has_cell};
use mk_geom::{Cell, lookup, page_at};

/// What a Free frees: the cell, and the header word of its page.
#[derive(Clone, Copy)]
pub(crate) struct Target {
    pub(crate) cell: Cell,
    pub(crate) header: u64,
}

/// Whether the cell's bit is set among the freed bits of its page's quarantine word.
pub(crate) fn is_freed(quar: u64, cell: Cell) -> bool
    requires { cell.index < 32 }
    ensures { result ≡ has_bit (quar % 4294967296) cell.index }
{
    has_cell(QuarantineWord::of(quar).freed, cell.index)
}

/// Loads the register of a Free. Null decides it.
pub(crate) fn load_freed(words: &Words, turn: &mut Turn, register: u8) -> u64
    requires one_table { turn.old.pass.table ≡ words.now }
    requires unloaded { IsUnloaded turn.old.pass register }
    ensures loaded { HasLoaded turn.old.pass register result turn.new.pass }
    ensures null { (result == 0) ≡ true → value_of turn.old.pass register ≡ Null }
    ensures keeps { (result == 0) ≡ false → value_of turn.new.pass register ≡ value_of turn.old.pass register }
{
    turn.reg_load(words, register)
}

/// The cell that the loaded register of a Free points into, and the header word of its page. An object is freed by its
/// first word, so the page that the value points into is the cell's.
pub(crate) fn find_cell(words: &Words, turn: &mut Turn, value: u64) -> Target
    requires one_table { turn.old.pass.table ≡ words.now }
    requires loaded { IsLoaded turn.old.pass }
    requires value { (call_of turn.old.pass).p ≡ value }
    ensures looks { OnlyLooks turn.old.pass turn.new.pass }
    ensures cell { target turn.old.pass.table.config.pages (now_of turn.old.pass).words (call_of turn.old.pass)
        ≡ Some result.cell }
    ensures within { result.cell.page < turn.old.pass.table.config.pages }
    ensures index { result.cell.index < 32 }
    ensures header { result.header ≡ header_at (now_of turn.old.pass).words result.cell.page }
    ensures keeps { KeepsValues turn.old.pass turn.new.pass }
{
    let page = page_at(value);
    let header = look_at(words, turn, Word::Head(page));
    let Some(cell) = lookup(words.pages(), header, value) else {
        unreachable!()
    };
    Target { cell, header }
}

/// Looks at the quarantine word of the page of a Free's target. If the target is freed already, that decides the Free.
pub(crate) fn look_at_quarantine(words: &Words, turn: &mut Turn, cell: Cell) -> u64
    requires one_table { turn.old.pass.table ≡ words.now }
    requires loaded { IsLoaded turn.old.pass }
    requires cell { target turn.old.pass.table.config.pages (now_of turn.old.pass).words (call_of turn.old.pass)
        ≡ Some cell }
    requires within { cell.page < turn.old.pass.table.config.pages }
    ensures seen { HasSeen turn.old.pass cell turn.new.pass }
    ensures finds { result ≡ named_word (now_of turn.old.pass).words (word.Quar cell.page) }
    ensures keeps { is_freed (now_of turn.old.pass).words cell ≡ false → KeepsValues turn.old.pass turn.new.pass }
{
    turn.look(words, Word::Quar(cell.page))
}

/// Quarantines the target of a Free, which isn't freed yet. A run's needs all other gates held.
pub(crate) fn quarantine(words: &Words, turn: &mut Turn, cell: Cell, quar: u64)
    requires free { MayFreeOn words.now turn.old.pass cell quar }
    requires gates { (not (heads_run (header_in (now_of turn.old.pass).words cell.page))
        || others_are_held turn.old.pass.table.config.callers (now_of turn.old.pass).words turn.old.pass.seat) ≡ true }
    ensures freed { HasFreed turn.old.pass cell turn.new.pass }
    ensures once { FreesOnce turn.old.pass turn.new.pass }
{
    let QuarantineWord { freed, snapshot } = QuarantineWord::of(quar);
    let more = QuarantineWord {
        freed: freed | 1 << cell.index,
        snapshot,
    };
    turn.quar(words, cell.page, more.word());
}
