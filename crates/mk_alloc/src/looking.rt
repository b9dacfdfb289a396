//! Looks of the turn's holder, at words that none but it changes.
ghost use Rattle.std.specs.Prelude.{◌≡◌, ℕ, ◌<◌, ◌==◌, true};
ghost use Rattle.mk_core.specs.{Conditions.is_word, Words.{named_word, phase_of}};
ghost use Rattle.mk_caller.specs.Below.Words.States.{call_of, now_of};
ghost use Rattle.mk_caller.specs.States.{value_of};
ghost use Rattle.mk_alloc.specs.Placing.{is_acting, is_steady_word, OnlyLooks};

use mk_caller::lower::words::{Turn, Words};
use mk_core::{Phase, Word};

/// Looks at a word that none but the holder changes.
#[inline(always)]
pub(crate) fn look_at(words: &Words, turn: &mut Turn, word: Word) -> u64
    requires one_table { turn.old.pass.table ≡ words.now }
    requires acting { is_acting (call_of turn.old.pass).stage ≡ true }
    requires steady { is_steady_word word ≡ true }
    requires in_range { is_word turn.old.pass.table.config word ≡ true }
    ensures looks { OnlyLooks turn.old.pass turn.new.pass }
    ensures finds { result ≡ named_word (now_of turn.old.pass).words word }
    ensures keeps { (r : ℕ) → r < 8 → value_of turn.new.pass r ≡ value_of turn.old.pass r }
{
    turn.look(words, word)
}

/// Looks whether a cycle marks.
pub(crate) fn is_marking(words: &Words, turn: &mut Turn) -> bool
    requires one_table { turn.old.pass.table ≡ words.now }
    requires acting { is_acting (call_of turn.old.pass).stage ≡ true }
    ensures looks { OnlyLooks turn.old.pass turn.new.pass }
    ensures finds { result ≡ (phase_of (now_of turn.old.pass).words == 1) }
{
    let found = turn.look(words, Word::Phase);
    Phase::Marking.is_in(found)
}
