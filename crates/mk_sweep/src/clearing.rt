//! Before a sweep all black words are cleared, and then all dirty words.
ghost use Rattle.std.specs.Prelude.{◌≡◌, ℕ, ◌<◌, [], slice_index};
ghost use Rattle.mk_cycle.specs.{Grays.{BlacksFewer, DirtyFewer}, Stops.still_words};
ghost use Rattle.mk_sweep.specs.Sweeps.{IsSweeping, SweepsOn};

use mk_cycle::lower::words::{Stopped, Words};

/// Clears all black words.
pub(crate) fn unblack_all(words: &Words, stop: &mut Stopped)
    requires one_table { stop.old.pass.table ≡ words.now }
    requires sweeping { IsSweeping stop.old.pass }
    ensures on { SweepsOn stop.old stop.new [] }
    ensures fewer { BlacksFewer (still_words stop.old.pass) (still_words stop.new.pass) }
    ensures none { (p : ℕ) → p < words.now.config.pages → slice_index (still_words stop.new.pass).blacks p ≡ 0 }
{
    for page in 0..words.pages() {
        stop.unblack(words, page);
    }
}

/// Clears all dirty words. Nothing is black.
pub(crate) fn undirty_all(words: &Words, stop: &mut Stopped)
    requires one_table { stop.old.pass.table ≡ words.now }
    requires sweeping { IsSweeping stop.old.pass }
    requires none { (p : ℕ) → p < words.now.config.pages → slice_index (still_words stop.old.pass).blacks p ≡ 0 }
    ensures on { SweepsOn stop.old stop.new [] }
    ensures fewer { DirtyFewer (still_words stop.old.pass) (still_words stop.new.pass) }
    ensures clean { (p : ℕ) → p < words.now.config.pages → slice_index (still_words stop.new.pass).dirty p ≡ 0 }
{
    for page in 0..words.pages() {
        stop.undirty(words, page);
    }
}
