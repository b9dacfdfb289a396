//! Looks in the stop, when the close is wanted and no marker attends.
ghost use Rattle.std.specs.Prelude.{◌≡◌, true};
ghost use Rattle.mk_core.specs.{Conditions.is_word, Words.named_word};
ghost use Rattle.mk_sweep.specs.Below.Cycles.Stops.{is_still_word};
ghost use Rattle.mk_why.specs.Stops.{IsStill, LooksWhileStill, view_by};

use mk_core::Word;
use mk_sweep::lower::words::{Stopped, Words};

/// Looks at any word but the phase.
pub(crate) fn look_at(words: &Words, stop: &mut Stopped, x: Word) -> u64
    requires one_table { stop.old.pass.table ≡ words.now }
    requires still { IsStill stop.old.pass }
    requires word { is_word words.now.config x ≡ true }
    requires name { is_still_word x ≡ true }
    ensures on { LooksWhileStill stop.old stop.new }
    ensures found { result ≡ named_word (view_by stop.old.pass).words x }
{
    stop.look(words, x)
}
