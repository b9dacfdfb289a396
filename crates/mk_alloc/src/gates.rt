//! The gates of all other callers, which a large Free holds while its run is unmapped, are opened.
ghost use Rattle.std.specs.Prelude.{◌≡◌, ◌<◌, true, false};
ghost use Rattle.mk_core.specs.{Moments.is_held, NewPlaces.is_run_gone};
ghost use Rattle.mk_caller.specs.Below.Words.States.{now_of};
ghost use Rattle.mk_alloc.specs.FreeParts.{HoldsOthers, MayOpen, SetsGate, SetsGates, all_others, is_settling, no_gate};

use mk_caller::lower::words::{Turn, Words};

/// Opens a caller's gate, unless it is the holder's own.
fn open_other(words: &Words, turn: &mut Turn, caller: u64)
    requires may { MayOpen words.now turn.old.pass }
    requires within { caller < turn.old.pass.table.config.callers }
    requires held { is_held (now_of turn.old.pass).words caller ≡ all_others turn.old.pass.seat caller }
    ensures sets { SetsGate is_settling turn.old.pass caller false turn.new.pass }
    ensures gone { is_run_gone (now_of turn.new.pass).words (now_of turn.new.pass).seats.holding.freed ≡ true }
{
    if !turn.seat().is_caller(caller) {
        turn.open_gate(words, caller);
    }
}

/// Opens the gates of all other callers, once the run that the call freed is unmapped and wiped.
pub(crate) fn open_gates(words: &Words, turn: &mut Turn)
    requires may { MayOpen words.now turn.old.pass }
    requires held { HoldsOthers turn.old.pass }
    ensures sets { SetsGates is_settling turn.old.pass no_gate turn.new.pass }
    ensures gone { is_run_gone (now_of turn.new.pass).words (now_of turn.new.pass).seats.holding.freed ≡ true }
{
    for caller in 0..words.callers() {
        open_other(words, turn, caller);
    }
}
