//! Steps in the stop, when the close is wanted and no marker attends.
ghost use Rattle.std.specs.Prelude.{◌≡◌, ◌/◌, ◌≢◌, ◌+◌, ◌<◌, ◌^◌, true, slice_index};
ghost use Rattle.mk_core.specs.{Cells.{first_word, head_page}, Conditions.is_word};
ghost use Rattle.mk_core.specs.{MarkingConditions.may_turn_black, Words.named_word};
ghost use Rattle.mk_cycle.specs.Grays.{with_marks, with_blacks, without_blacks, without_dirty, HasDirtyPart, IsInHand};
ghost use Rattle.mk_cycle.specs.{Grays.{HandPointsInto, MarksOn, LooksOn, IsDue}, Stops.{MayTrace, hand_of}};
ghost use Rattle.mk_cycle.specs.Stops.{is_page_word, is_root, still_words};

use crate::noted::Noted;
use crate::tables::Table;
use mk_core::{Word, bit};
use mk_geom::{Cell, PAGE_WORDS};
use mk_words::Stopped;

/// Looks at a word that gives no hand.
#[inline(always)]
pub(crate) fn look_at(table: Table, stop: &mut Stopped, x: Word) -> u64
    requires may { MayTrace table.words.now stop.old.pass }
    requires word { is_word table.words.now.config x ≡ true }
    requires plain { is_page_word x ≡ true }
    ensures looks { LooksOn stop.old stop.new }
    ensures hand { hand_of stop.new.pass ≡ hand_of stop.old.pass }
    ensures found { result ≡ named_word (still_words stop.old.pass) x }
{
    stop.look_among(table.words, table.pages, x)
}

/// Looks at a register or a global, whose value is then the hand.
#[tactic(auto, using(crate::proofs::MaySteps::may_look))]
#[inline(always)]
pub(crate) fn look_at_root(table: Table, stop: &mut Stopped, x: Word) -> u64
    requires may { MayTrace table.words.now stop.old.pass }
    requires word { is_word table.words.now.config x ≡ true }
    requires root { is_root x ≡ true }
    ensures looks { LooksOn stop.old stop.new }
    ensures hand { IsInHand stop.new.pass result }
    ensures found { result ≡ named_word (still_words stop.old.pass) x }
{
    stop.look_among(table.words, table.pages, x)
}

/// Looks at a word of a gray cell of this many words, whose value is then the hand, if it isn't 0. It is on this page
/// of the cell.
#[tactic(auto, using(crate::proofs::StopSteps::word_near))]
#[inline(always)]
pub(crate) fn look_at_word(table: Table, stop: &mut Stopped, gray: Noted, part: u64, i: u64) -> u64
    requires may { MayTrace table.words.now stop.old.pass }
    requires due { IsDue table.pages (still_words stop.old.pass) gray }
    requires within { i < gray.words }
    requires part { part ≡ i / 64 }
    ensures looks { LooksOn stop.old stop.new }
    ensures hand { result ≢ 0 → IsInHand stop.new.pass result }
    ensures found { result
        ≡ slice_index (still_words stop.old.pass).heap (first_word (still_words stop.old.pass) gray.cell + i) }
{
    let Cell { page, index } = gray.cell;
    let word = PAGE_WORDS * page + index * gray.words + i;
    stop.look_on_page(table.words, table.pages, page + part, Word::Heap(word))
}

/// Marks the cell into which the hand points.
#[tactic(auto, using(crate::proofs::Stilled::mark_words))]
#[inline(always)]
pub(crate) fn mark_cell(table: Table, stop: &mut Stopped, cell: Cell)
    requires may { MayTrace table.words.now stop.old.pass }
    requires reached { HandPointsInto stop.old.pass cell }
    ensures on { MarksOn stop.old stop.new }
    ensures words { still_words stop.new.pass ≡ with_marks cell.page (2 ^ cell.index) (still_words stop.old.pass) }
{
    stop.mark_in_use(table.words, table.pages, cell.page, bit(cell.index));
}

/// Blackens a marked cell, whose words point well or aren't scanned.
#[tactic(auto, using(crate::proofs::MaySteps::may_black_cell, crate::proofs::Stilled::black_words))]
#[inline(always)]
pub(crate) fn blacken_cell(table: Table, stop: &mut Stopped, cell: Cell)
    requires may { MayTrace table.words.now stop.old.pass }
    requires page { cell.page < table.pages }
    requires index { cell.index < 32 }
    requires turns { may_turn_black table.pages (still_words stop.old.pass) cell ≡ true }
    ensures on { MarksOn stop.old stop.new }
    ensures words { still_words stop.new.pass ≡ with_blacks cell.page (2 ^ cell.index) (still_words stop.old.pass) }
{
    stop.black_among(table.words, table.pages, cell.page, bit(cell.index));
}

/// Clears the black word of a page of which a part is dirty.
#[tactic(auto, using(crate::proofs::MaySteps::may_unblack_page, crate::proofs::Stilled::unblack_words))]
pub(crate) fn clear_black(table: Table, stop: &mut Stopped, page: u64)
    requires may { MayTrace table.words.now stop.old.pass }
    requires page { page < table.pages }
    requires part { HasDirtyPart (still_words stop.old.pass) page }
    ensures on { MarksOn stop.old stop.new }
    ensures words { still_words stop.new.pass ≡ without_blacks page (still_words stop.old.pass) }
{
    stop.unblack(table.words, page);
}

/// Clears a page's dirty word. Nothing of the page is black.
#[tactic(auto, using(crate::proofs::MaySteps::may_undirty_page, crate::proofs::Stilled::undirty_words))]
pub(crate) fn undirty_page(table: Table, stop: &mut Stopped, page: u64)
    requires may { MayTrace table.words.now stop.old.pass }
    requires page { page < table.pages }
    requires own { slice_index (still_words stop.old.pass).blacks page ≡ 0 }
    requires head { slice_index (still_words stop.old.pass).blacks (head_page (still_words stop.old.pass) page) ≡ 0 }
    ensures on { MarksOn stop.old stop.new }
    ensures words { still_words stop.new.pass ≡ without_dirty page (still_words stop.old.pass) }
{
    stop.undirty(table.words, page);
}
