//! The tallies are set when a cycle has ended.
ghost use Rattle.std.specs.Prelude.{◌≡◌, ◌+◌, ◌-◌, true, false};
ghost use Rattle.mk_core.specs.{Accesses.tally_word, Counts.in_a_word, Conditions.is_word, Words.named_word};
ghost use Rattle.mk_words.specs.States.{now_of};
ghost use Rattle.mk_cycle.specs.{EngineLaw.{IsFreeForCycle, is_register}, FinishCycle.{Sets, with_cycle_counted}};
ghost use Rattle.mk_cycle.specs.{FinishCycle.with_tally, TurnKeeps.unchanged};

use crate::turn_steps::look_among;
use mk_core::{Tally, Word};
use mk_words::{Turn, Words};

/// Looks at a word that is no register.
#[inline(always)]
fn look(turn: &mut Turn, words: &Words, x: Word) -> u64
    requires one_table { turn.old.pass.table ≡ words.now }
    requires free { IsFreeForCycle turn.old.pass }
    requires in_range { is_word words.now.config x ≡ true }
    requires no_register { is_register x ≡ false }
    ensures sets { Sets unchanged turn.old.pass turn.new.pass }
    ensures reads { result ≡ named_word (now_of turn.new.pass).words x }
{
    look_among(turn, words, words.pages(), x)
}

/// Stores a tally: words for `Held` and `Fresh`, and how often it came for the others.
#[tactic(auto, using(crate::proofs::Allowed::tally_allowed))]
fn set(turn: &mut Turn, words: &Words, n: Tally, v: u64)
    requires one_table { turn.old.pass.table ≡ words.now }
    requires free { IsFreeForCycle turn.old.pass }
    ensures { Sets (with_tally n v) turn.old.pass turn.new.pass }
{
    turn.tally(words, n, v);
}

/// Raises a tally, to 2^64 - 1 at most.
fn raise(turn: &mut Turn, words: &Words, n: Tally, word: Word, by: u64)
    requires one_table { turn.old.pass.table ≡ words.now }
    requires free { IsFreeForCycle turn.old.pass }
    requires word { word ≡ tally_word n }
    ensures { Sets (with_tally n (in_a_word (named_word (now_of turn.old.pass).words word + by)))
        turn.old.pass turn.new.pass }
{
    let before = look(turn, words, word);
    set(turn, words, n, before.saturating_add(by));
}

/// Lowers a tally, to 0 at least.
fn lower(turn: &mut Turn, words: &Words, n: Tally, word: Word, by: u64)
    requires one_table { turn.old.pass.table ≡ words.now }
    requires free { IsFreeForCycle turn.old.pass }
    requires word { word ≡ tally_word n }
    ensures { Sets (with_tally n (named_word (now_of turn.old.pass).words word - by)) turn.old.pass turn.new.pass }
{
    let before = look(turn, words, word);
    set(turn, words, n, before.saturating_sub(by));
}

/// Counts a cycle that has ended, and how many allocations it released; so many words are held no longer.
pub(crate) fn count_cycle(turn: &mut Turn, words: &Words, held: u64, released: u64)
    requires one_table { turn.old.pass.table ≡ words.now }
    requires free { IsFreeForCycle turn.old.pass }
    ensures { Sets (with_cycle_counted (now_of turn.old.pass).words held released) turn.old.pass turn.new.pass }
{
    lower(turn, words, Tally::Held, Word::Held, held);
    raise(turn, words, Tally::Cycles, Word::Cycles, 1);
    raise(turn, words, Tally::Released, Word::Released, released);
}
