//! Released cells are given back page by page, and pages on which nothing is left are free again.
ghost use Rattle.std.specs.Prelude.{◌≡◌};
ghost use Rattle.mk_core.specs.Cells.{left_unmarked};
ghost use Rattle.mk_words.specs.States.{now_of};
ghost use Rattle.mk_cycle.specs.Freeing.{GivesBack, IsQuarantineWord, MayGiveBackOn, WasReleasedOn};

use crate::counting::{self, held_words, released_cells};
use crate::finishing::Released;
use crate::reading::ReadHeader;
use crate::settling::Settled;
use crate::turn_steps::look_among;
use crate::wiping::wipe_released;
use mk_core::{QuarantineWord, Word, without};
use mk_words::{Turn, Words};

/// Gives back the released cells of a page: those of the snapshot that have no mark.
#[inline(always)]
fn give_back(
    turn: &mut Turn,
    words: &Words,
    pages: u64,
    page: u64,
    header: &ReadHeader,
    quarantine: u64,
    gone: u64,
)
    requires may { MayGiveBackOn words.now turn.old.pass pages page header.now }
    requires quarantine { IsQuarantineWord turn.old.pass page quarantine }
    requires gone { gone ≡ left_unmarked (now_of turn.old.pass).words page }
    ensures { GivesBack page turn.old.pass turn.new.pass }
{
    let used = look_among(turn, words, pages, Word::Used(page));
    wipe_released(turn, words, pages, page, header, used & gone);
    turn.used(words, page, without(used, gone));
    let QuarantineWord { freed, snapshot } = QuarantineWord::of(quarantine);
    let left = QuarantineWord {
        freed: without(freed, gone),
        snapshot: snapshot - gone,
    };
    turn.quar(words, page, left.word());
}

/// Gives back the released cells of a page with this header word, and returns what was released on it. If its snapshot
/// is empty, no more is looked at.
#[inline(always)]
pub(crate) fn release_cells(
    turn: &mut Turn,
    words: &Words,
    pages: u64,
    page: u64,
    header: &ReadHeader,
) -> Settled
    requires may { MayGiveBackOn words.now turn.old.pass pages page header.now }
    ensures gives { GivesBack page turn.old.pass turn.new.pass }
    ensures told { WasReleasedOn (now_of turn.old.pass).words page result.released result.held }
{
    let quarantine = counting::look(turn, words, pages, Word::Quar(page));
    let snapshot = QuarantineWord::of(quarantine).snapshot;
    if snapshot == 0 {
        let released = Released {
            count: 0,
            words: 0,
            kept: 0,
        };
        return Settled { released, held: 0 };
    }
    let marks = counting::look(turn, words, pages, Word::Mark(page));
    let gone = without(snapshot, marks);
    if gone != 0 {
        give_back(turn, words, pages, page, header, quarantine, gone);
    }
    let released = released_cells(snapshot, marks, header);
    let held = held_words(header, released.words);
    Settled { released, held }
}
