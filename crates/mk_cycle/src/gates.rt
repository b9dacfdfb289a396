//! The gates of other callers. Each is held once its caller is in no call: one that is in a call is waited for.
ghost use Rattle.std.specs.Prelude.{◌≡◌, ◌<◌, true, false, not};
ghost use Rattle.mk_core.specs.Moments.{is_held, others_are_held};
ghost use Rattle.mk_words.specs.States.{now_of};
ghost use Rattle.mk_cycle.specs.Stops.{HoldsGates, HoldsSuch, IsHeldOrOwn, all_others, only_gate, HolderIsLoaded};
ghost use Rattle.mk_cycle.specs.Stops.{IsForGate};

use crossbeam_utils::Backoff;
use mk_core::{Gate, Word};
use mk_words::{Turn, Words};
use std::sync::Wait;

/// Holds a gate that isn't held, once its caller is in no call. A call is short, so who waits for its end yields and
/// doesn't sleep.
fn wait_and_hold<R: Wait>(rt: &R, words: &Words, turn: &mut Turn, caller: u64)
    requires may { IsForGate HolderIsLoaded words.now turn.old.pass caller }
    requires not_held { is_held (now_of turn.old.pass).words caller ≡ false }
    ensures steps { HoldsSuch (only_gate caller) turn.old turn.new }
    ensures held { is_held (now_of turn.new.pass).words caller ≡ true }
{
    let backoff = Backoff::new();
    'trying: for _ in rt.forever() {
        match turn.try_hold(words, caller) {
            Ok(()) => return,
            Err(_) => backoff.snooze(),
        }
    }
    unreachable!()
}

/// Holds the gate of another caller. Returns whether it wasn't held before.
pub(crate) fn hold_gate<R: Wait>(rt: &R, words: &Words, turn: &mut Turn, caller: u64) -> bool
    requires { IsForGate HolderIsLoaded words.now turn.old.pass caller }
    ensures steps { HoldsSuch (only_gate caller) turn.old turn.new }
    ensures held { is_held (now_of turn.new.pass).words caller ≡ true }
    ensures was { is_held (now_of turn.old.pass).words caller ≡ not result }
{
    if Gate::Held.is_in(turn.look(words, Word::Gate(caller))) {
        return false;
    }
    wait_and_hold(rt, words, turn, caller);
    true
}

/// Holds a caller's gate, unless it is the holder's own.
#[inline(always)]
fn hold_other<R: Wait>(rt: &R, words: &Words, turn: &mut Turn, caller: u64)
    requires one_table { turn.old.pass.table ≡ words.now }
    requires ready { HolderIsLoaded turn.old.pass }
    requires within { caller < words.now.config.callers }
    ensures steps { HoldsSuch (all_others turn.old.pass.seat) turn.old turn.new }
    ensures held { IsHeldOrOwn turn.new.pass caller }
{
    if !turn.seat().is_caller(caller) {
        hold_gate(rt, words, turn, caller);
    }
}

/// Holds the gates of all other callers. The turn's holder has loaded what its call loads.
#[inline(always)]
pub fn hold_gates<R: Wait>(rt: &R, words: &Words, turn: &mut Turn)
    requires one_table { turn.old.pass.table ≡ words.now }
    requires ready { HolderIsLoaded turn.old.pass }
    ensures steps { HoldsSuch (all_others turn.old.pass.seat) turn.old turn.new }
    ensures holds { HoldsGates turn.old.pass turn.new.pass }
    ensures held { others_are_held words.now.config.callers (now_of turn.new.pass).words turn.new.pass.seat ≡ true }
{
    for caller in 0..words.callers() {
        hold_other(rt, words, turn, caller);
    }
}
