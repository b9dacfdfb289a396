//! A turn of the host's, in which it holds a gate and opens it.
ghost use Rattle.std.specs.Prelude.{◌≡◌, ◌<◌, IfOk};
ghost use Rattle.mk_core.specs.Counts.{TalliesAreTidy};
ghost use Rattle.mk_clients.specs.Clients.{IsHosts, MayGiveBack};

use mk_core::Word;
use mk_heap::lower::words::{Pass, Turn, Words};

/// Holds the gate of a caller, looks at one of its registers, and opens it.
fn hold_once(words: &Words, turn: &mut Turn, caller: u64)
    requires one_table { turn.old.pass.table ≡ words.now }
    requires free { MayGiveBack turn.old.pass }
    requires caller { caller < words.now.config.callers }
    ensures one_table { turn.new.pass.table ≡ words.now }
    ensures free { MayGiveBack turn.new.pass }
    ensures tidy { TalliesAreTidy turn.old.pass.table.config turn.old.pass.seen
        → TalliesAreTidy turn.new.pass.table.config turn.new.pass.seen }
{
    match turn.try_hold(words, caller) {
        Ok(()) => {
            turn.look(
                words,
                Word::Reg {
                    caller,
                    register: 0,
                },
            );
            turn.open_gate(words, caller);
        }
        Err(_) => {}
    }
}

/// Takes the turn if it is free, and gives it back.
pub fn one_turn(words: &Words, pass: Pass, caller: u64) -> Pass
    requires one_table { pass.table ≡ words.now }
    requires host { IsHosts pass }
    requires caller { caller < words.now.config.callers }
    ensures one_table { result.table ≡ words.now }
    ensures host { IsHosts result }
{
    match pass.try_take(words, None) {
        Ok(mut turn) => {
            hold_once(words, &mut turn, caller);
            turn.give(words)
        }
        Err((back, _)) => back,
    }
}
