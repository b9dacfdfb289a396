//! Looks of a turn that is free for a cycle.
ghost use Rattle.std.specs.Prelude.{◌≡◌, true, false};
ghost use Rattle.mk_core.specs.{Conditions.is_word, Words.named_word};
ghost use Rattle.mk_words.specs.{States.now_of, TurnSteps.Acts};
ghost use Rattle.mk_cycle.specs.EngineLaw.{IsFreeForCycle, is_register};
ghost use Rattle.mk_core.specs.declared.events.Step.TheVariants as step;

use mk_core::Word;
use mk_words::{Turn, Words};

/// Looks at a word that is no register, in a table of this many pages.
#[inline(always)]
pub(crate) fn look_among(turn: &mut Turn, words: &Words, pages: u64, x: Word) -> u64
    requires one_table { turn.old.pass.table ≡ words.now }
    requires pages { pages ≡ words.now.config.pages }
    requires free { IsFreeForCycle turn.old.pass }
    requires in_range { is_word words.now.config x ≡ true }
    requires no_register { is_register x ≡ false }
    ensures acts { Acts turn.old.pass (step.Look x) turn.new.pass }
    ensures reads { result ≡ named_word (now_of turn.new.pass).words x }
{
    turn.look_among(words, pages, x)
}
