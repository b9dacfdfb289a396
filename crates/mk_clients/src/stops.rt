//! A turn of the host's, in which it holds all gates and opens them.
ghost use Rattle.std.specs.Prelude.{◌≡◌, ◌≤◌, true, false};
ghost use Rattle.mk_clients.specs.Clients.{MayGiveBack, Settled, HoldsBelow, StaysTidy};

use mk_heap::lower::words::{Turn, Words};

/// Opens the gates of the callers below this one, which are held.
fn open_below(words: &Words, turn: &mut Turn, end: u64)
    requires one_table { turn.old.pass.table ≡ words.now }
    requires settled { Settled turn.old.pass }
    requires within { end ≤ words.now.config.callers }
    requires holds { HoldsBelow turn.old.pass end }
    ensures one_table { turn.new.pass.table ≡ words.now }
    ensures free { MayGiveBack turn.new.pass }
    ensures tidy { StaysTidy turn.old.pass turn.new.pass }
{
    let mut caller = end;
    while caller > 0 {
        caller -= 1;
        turn.open_gate(words, caller);
    }
}

/// Holds the gates of all callers, or none if one is in a call.
fn hold_all(words: &Words, turn: &mut Turn) -> bool
    requires one_table { turn.old.pass.table ≡ words.now }
    requires free { MayGiveBack turn.old.pass }
    ensures one_table { turn.new.pass.table ≡ words.now }
    ensures settled { result ≡ true → Settled turn.new.pass }
    ensures holds { result ≡ true → HoldsBelow turn.new.pass words.now.config.callers }
    ensures free { result ≡ false → MayGiveBack turn.new.pass }
    ensures tidy { StaysTidy turn.old.pass turn.new.pass }
{
    let mut caller = 0;
    while caller < words.callers() {
        match turn.try_hold(words, caller) {
            Ok(()) => {}
            Err(_) => {
                open_below(words, turn, caller);
                return false;
            }
        }
        caller += 1;
    }
    true
}

/// Stops all callers, if none is in a call, and lets them go on.
pub fn stop_once(words: &Words, mut turn: Turn) -> Turn
    requires one_table { turn.pass.table ≡ words.now }
    requires free { MayGiveBack turn.pass }
    ensures one_table { result.pass.table ≡ words.now }
    ensures free { MayGiveBack result.pass }
    ensures tidy { StaysTidy turn.pass result.pass }
{
    if hold_all(words, &mut turn) {
        let stopped = turn.stopped();
        stopped.open_all(words)
    } else {
        turn
    }
}
