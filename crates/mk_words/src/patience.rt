//! How one waits for what may take long. No promise rests on it, but how long each sleep is.
ghost use Rattle.std.specs.{Prelude.{◌≡◌, ◌*◌, ◌<◌, ◌≤◌, IfSome, IfNone}, Duration.as_nanos};
ghost use Rattle.mk_words.specs.TurnSteps.{sleep_after, PausesOnce};

use crate::words::Words;
use crossbeam_utils::Backoff;
use std::marker::Model;
use std::sync::Wait;
use std::time::Duration;

/// The first sleep, in microseconds. Linux ends a sleep up to 50 microseconds late, so none is shorter.
const FIRST: u64 = 50;

/// The longest sleep: less than a scheduler lets a thread run, so one who sleeps loses little by it.
const LONGEST: u64 = 1000;

/// One who waits: it pauses as `Backoff` does, which spins for longer each time and then yields the processor a few
/// times, and then sleeps, each time twice as long as before. After a sleep it looks once and sleeps again, so that who
/// holds the turn isn't disturbed. It is seen as its next sleep, in microseconds.
#[derive(Drop)]
pub struct Patience {
    backoff: Backoff,
    micros: u64,
}

impl Model for Patience {
    ghost use Rattle.std.specs.Prelude.{ℕ, ◌≤◌};

    ghost Value = { ℕ };

    ghost view = { λ p. p.micros };

    ghost invariant = { λ p. p.micros ≤ 1000 };
}

impl Patience {
    /// One who hasn't waited yet.
    pub fn new() -> Patience
        ensures { result ≡ 50 }
    {
        Patience {
            backoff: Backoff::new(),
            micros: FIRST,
        }
    }

    /// What was waited for came, so the next wait begins as the first one.
    pub fn reset(&mut self)
        ensures { self.new ≡ 50 }
    {
        self.backoff.reset();
        self.micros = FIRST;
    }

    /// Spins or yields once, or returns how long to sleep.
    fn pause(&mut self) -> Option<Duration>
        ensures awake { IfNone result (self.new ≡ self.old) }
        ensures sleep { IfSome result (λ sleep. as_nanos sleep ≡ 1000 * self.old) }
        ensures longer { IfSome result (λ sleep. self.new ≡ sleep_after self.old) }
    {
        if !self.backoff.is_completed() {
            self.backoff.snooze();
            return None;
        }
        let sleep = Duration::from_micros(self.micros);
        self.micros = (2 * self.micros).min(LONGEST);
        Some(sleep)
    }

    /// Pauses once, if another has the turn. Who has waited long is late while it sleeps. When it wakes it pauses as at
    /// first, since others may let it have the turn then.
    #[cold]
    #[inline(never)]
    pub fn pause_for_turn<R: Wait>(&mut self, rt: &R, words: &Words)
        ensures { PausesOnce self.old self.new }
    {
        let is_late = self.micros == LONGEST;
        let Some(sleep) = self.pause() else {
            return;
        };
        if is_late {
            words.sleep_late(rt, sleep);
            self.backoff.reset();
        } else {
            words.sleep_on_turn(rt, sleep);
        }
    }

    /// Pauses once, where the phase word's low bits are these.
    pub fn pause_for_phase<R: Wait>(&mut self, rt: &R, words: &Words, phase: u64)
        ensures { PausesOnce self.old self.new }
    {
        if let Some(sleep) = self.pause() {
            words.sleep_on_phase(rt, phase, sleep);
        }
    }

    /// Pauses once, where the caller's own gate is held.
    pub fn pause_for_gate<R: Wait>(&mut self, rt: &R, words: &Words, caller: u64)
        requires { caller < words.now.config.callers }
        ensures { PausesOnce self.old self.new }
    {
        if let Some(sleep) = self.pause() {
            words.sleep_on_gate(rt, caller, sleep);
        }
    }
}
