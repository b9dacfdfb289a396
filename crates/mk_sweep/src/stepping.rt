//! Steps of a sweep: in the stop, when the close is wanted and no marker attends.
ghost use Rattle.std.specs.Prelude.{◌≡◌, ◌^◌, [], ◌∷◌, true, slice_index};
ghost use Rattle.mk_core.specs.{Conditions.is_word, Words.named_word};
ghost use Rattle.mk_cycle.specs.{Below.Words.States.world_of, Grays.with_marks, Stops.{hand_of, is_page_word, is_root}};
ghost use Rattle.mk_cycle.specs.Stops.{still_words};
ghost use Rattle.mk_sweep.specs.Sweeps.{IsScannedWord, HasInHand, IsReachedCell, IsSweeping, SweepsOn};

use mk_core::{Word, bit};
use mk_cycle::lower::words::{Stopped, Words};
use mk_geom::Cell;

/// Looks at a word that gives no hand.
#[inline(always)]
pub(crate) fn look_at(words: &Words, stop: &mut Stopped, x: Word) -> u64
    requires one_table { stop.old.pass.table ≡ words.now }
    requires sweeping { IsSweeping stop.old.pass }
    requires word { is_word words.now.config x ≡ true }
    requires plain { is_page_word x ≡ true }
    ensures on { SweepsOn stop.old stop.new [] }
    ensures words { still_words stop.new.pass ≡ still_words stop.old.pass }
    ensures hand { hand_of stop.new.pass ≡ hand_of stop.old.pass }
    ensures found { result ≡ named_word (still_words stop.old.pass) x }
{
    stop.look(words, x)
}

/// Looks at a register or a global, whose value is then the hand.
#[inline(always)]
pub(crate) fn look_at_root(words: &Words, stop: &mut Stopped, x: Word) -> u64
    requires one_table { stop.old.pass.table ≡ words.now }
    requires sweeping { IsSweeping stop.old.pass }
    requires word { is_word words.now.config x ≡ true }
    requires root { is_root x ≡ true }
    ensures on { SweepsOn stop.old stop.new [] }
    ensures words { still_words stop.new.pass ≡ still_words stop.old.pass }
    ensures hand { HasInHand stop.new.pass result }
    ensures found { result ≡ named_word (still_words stop.old.pass) x }
{
    stop.look(words, x)
}

/// Looks at a word of a mapped allocation that isn't leaf, whose value is then the hand.
#[inline(always)]
pub(crate) fn look_at_word(words: &Words, stop: &mut Stopped, word: u64) -> u64
    requires one_table { stop.old.pass.table ≡ words.now }
    requires sweeping { IsSweeping stop.old.pass }
    requires scanned { IsScannedWord words.now.config (world_of stop.old.pass).allocations word }
    ensures on { SweepsOn stop.old stop.new (word ∷ []) }
    ensures words { still_words stop.new.pass ≡ still_words stop.old.pass }
    ensures hand { HasInHand stop.new.pass result }
    ensures found { result ≡ slice_index (still_words stop.old.pass).heap word }
{
    stop.look(words, Word::Heap(word))
}

/// Marks the cell into which the hand points.
pub(crate) fn mark_cell(words: &Words, stop: &mut Stopped, cell: Cell)
    requires one_table { stop.old.pass.table ≡ words.now }
    requires sweeping { IsSweeping stop.old.pass }
    requires reached { IsReachedCell stop.old.pass cell }
    ensures on { SweepsOn stop.old stop.new [] }
    ensures words { still_words stop.new.pass ≡ with_marks cell.page (2 ^ cell.index) (still_words stop.old.pass) }
{
    stop.mark(words, cell.page, bit(cell.index));
}
