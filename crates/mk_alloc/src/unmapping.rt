//! The run of a large object that a Free has freed: its pages are unmapped, and then its words wiped, while the gates
//! of all other callers are held.
ghost use Rattle.std.specs.Prelude.{◌≡◌};
ghost use Rattle.mk_caller.specs.Below.Words.TurnSteps.{IsStopped};
ghost use Rattle.mk_alloc.specs.FreeParts.{ClearsRun, HoldsOthers, MayUnmap, Unmaps};

use crate::gates::open_gates;
use crate::wiping::wipe_run;
use mk_caller::lower::words::{Turn, Words};
use mk_core::RunPages;
use mk_geom::{Header, encode};

/// Unmaps the pages of the run that the call has freed.
pub(crate) fn unmap_run(words: &Words, turn: &mut Turn, run: RunPages)
    requires one_table { turn.old.pass.table ≡ words.now }
    requires may { MayUnmap turn.old.pass run }
    requires stopped { IsStopped turn.old.pass }
    ensures { Unmaps turn.old.pass run turn.new.pass }
{
    let head = encode(Header::Run {
        pages: run.count,
        mapped: false,
    });
    let next = encode(Header::Later {
        distance: 1,
        mapped: false,
    });
    turn.unmap_run(words, run.page, run.count, head, next);
}

/// Unmaps and wipes the run that the call has freed, and opens the gates of all other callers.
pub(crate) fn clear_run(words: &Words, turn: &mut Turn, run: RunPages)
    requires one_table { turn.old.pass.table ≡ words.now }
    requires may { MayUnmap turn.old.pass run }
    requires held { HoldsOthers turn.old.pass }
    ensures { ClearsRun turn.old.pass turn.new.pass }
{
    unmap_run(words, turn, run);
    wipe_run(words, turn, run);
    open_gates(words, turn);
}
