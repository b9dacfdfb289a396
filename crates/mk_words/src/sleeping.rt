//! Sleeping on a word, and waking who sleeps. None of it is an event or needs a pass, and no promise rests on it: who
//! has slept looks again.
ghost use Rattle.std.specs.Prelude.{◌<◌};
ghost use Rattle.mk_core.specs.Layout.{IsOfTable};

use crate::indexes::index_of;
use crate::words::Words;
use crossbeam_utils::Backoff;
use mk_core::{Gate, TableWord, Word, phase_bits};
use std::sync::Wait;
use std::sync::atomic::Ordering;
use std::time::Duration;

/// How many values there are of the half of a word that a sleep compares. What is slept on is always less.
const HALF: u64 = 1 << 32;

/// How often one who lets others have the turn first pauses for them, at most.
const PAUSES: u64 = 100;

impl Words {
    /// The index of a word in the table.
    fn index_in_table(&self, word: TableWord) -> usize
        requires named { IsOfTable self.now.config.pages word }
        ensures within { result < self.now.id.words }
    {
        self.is_within_limits();
        index_of(self.config.pages, word)
    }

    /// A word as it is now.
    fn peek(&self, word: TableWord) -> u64
        requires named { IsOfTable self.now.config.pages word }
    {
        self.table.shared.peek(self.index_in_table(word))
    }

    /// Sleeps until it is woken, for at most this long, unless the word is no longer as it was found.
    fn sleep_on<R: Wait>(&self, rt: &R, word: TableWord, found: u64, at_most: Duration)
        requires named { IsOfTable self.now.config.pages word }
    {
        let index = self.index_in_table(word);
        let expected = (found % HALF) as u32;
        self.table.shared.park_timeout(rt, index, expected, at_most);
    }

    /// Sleeps for at most this long, unless the turn is free. A `give` wakes nobody.
    pub fn sleep_on_turn<R: Wait>(&self, rt: &R, at_most: Duration) {
        let found = self.peek(TableWord::Turn);
        if found != 0 {
            self.sleep_on(rt, TableWord::Turn, found, at_most);
        }
    }

    /// Sleeps as `sleep_on_turn` does, and is counted as late meanwhile.
    pub(crate) fn sleep_late<R: Wait>(&self, rt: &R, at_most: Duration) {
        self.late.fetch_add(1, Ordering::SeqCst);
        self.sleep_on_turn(rt, at_most);
        self.late.fetch_sub(1, Ordering::SeqCst);
    }

    /// Wakes those who are late for the turn, and pauses until one of them has taken it, or for as long as a thread
    /// mostly takes to wake.
    #[cold]
    #[inline(never)]
    fn wake_late(&self) {
        self.table
            .shared
            .wake_all(self.index_in_table(TableWord::Turn));
        let backoff = Backoff::new();
        for _ in 0..PAUSES {
            if self.peek(TableWord::Turn) != 0 {
                return;
            }
            backoff.snooze();
        }
    }

    /// Lets one of those who are late for the turn have it first. It is called after a turn with a cycle: who sleeps
    /// would hardly find the turn free between one cycle and the next. If nobody is late it does nothing.
    pub fn let_late_first(&self) {
        if self.late.load(Ordering::SeqCst) > 0 {
            self.wake_late();
        }
    }

    /// Sleeps for at most this long, unless the phase word's low bits aren't these. A `begin`, a `want` and an `over`
    /// wake those who sleep so.
    pub fn sleep_on_phase<R: Wait>(&self, rt: &R, phase: u64, at_most: Duration) {
        let word = TableWord::Named(Word::Phase);
        let found = self.peek(word);
        if phase_bits(found) == phase {
            self.sleep_on(rt, word, found, at_most);
        }
    }

    /// Sleeps for at most this long, unless the caller's gate isn't held. An `open` wakes nobody.
    pub fn sleep_on_gate<R: Wait>(&self, rt: &R, caller: u64, at_most: Duration)
        requires { caller < self.now.config.callers }
    {
        self.is_within_limits();
        let word = TableWord::Named(Word::Gate(caller));
        let found = self.peek(word);
        if Gate::Held.is_in(found) {
            self.sleep_on(rt, word, found, at_most);
        }
    }

    /// Wakes those who sleep on the phase: markers, if there are any.
    pub(crate) fn wake_markers(&self) {
        if self.config.markers > 0 {
            let index = self.index_in_table(TableWord::Named(Word::Phase));
            self.table.shared.wake_all(index);
        }
    }
}
