//! Wanting the close, and waiting for the markers.
ghost use Rattle.std.specs.Prelude.{◌≡◌, ◌<◌};
ghost use Rattle.mk_core.specs.Words.{phase_of};
ghost use Rattle.mk_words.specs.{States.now_of, TurnSteps.IsStopped};
ghost use Rattle.mk_cycle.specs.{EngineLaw.WantsFirst, Grays.{TracesReached, WaitsForMarkers}};
ghost use Rattle.mk_cycle.specs.{Stops.{HolderIsLoaded, IsWanted}, Tracing.{Counted, is_waiting}, TurnKeeps.is_want};

use crossbeam_utils::Backoff;
use mk_core::Word;
use mk_words::{Stopped, Words};
use std::sync::Wait;

/// Wants the close.
fn want(words: &Words, stop: &mut Stopped)
    requires one_table { stop.old.pass.table ≡ words.now }
    requires ready { HolderIsLoaded stop.old.pass }
    requires phase { phase_of (now_of stop.old.pass).words ≡ 1 }
    ensures waits { WaitsForMarkers stop.old stop.new 1 }
    ensures wants { WantsFirst stop.old.pass stop.new.pass }
{
    stop.holds_gates();
    stop.want(words);
}

/// Looks at the phase word, which reports how many markers are in.
fn look_at_phase(words: &Words, stop: &mut Stopped) -> u64
    requires one_table { stop.old.pass.table ≡ words.now }
    requires ready { HolderIsLoaded stop.old.pass }
    requires gates { IsStopped stop.old.pass }
    requires phase { phase_of (now_of stop.old.pass).words ≡ 2 }
    ensures waits { WaitsForMarkers stop.old stop.new 0 }
    ensures wanted { result < 8 → IsWanted stop.new.pass }
{
    stop.look(words, Word::Phase)
}

/// Wants the close, and waits until no marker is in. All gates of others are held all the while.
pub fn want_and_wait<R: Wait>(rt: &R, words: &Words, stop: &mut Stopped)
    requires one_table { stop.old.pass.table ≡ words.now }
    requires ready { HolderIsLoaded stop.old.pass }
    requires phase { phase_of (now_of stop.old.pass).words ≡ 1 }
    ensures table { stop.new.pass.table ≡ stop.old.pass.table }
    ensures wanted { IsWanted stop.new.pass }
    ensures wants { WantsFirst stop.old.pass stop.new.pass }
    ensures traces { Counted is_waiting TracesReached is_want stop.old.pass stop.new.pass 1 }
{
    want(words, stop);
    let backoff = Backoff::new();
    for _ in rt.forever() {
        if look_at_phase(words, stop) < 8 {
            return;
        }
        backoff.snooze();
    }
}
