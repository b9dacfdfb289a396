// Sources and sinks in memory, whose calls move few bytes and fail as they are told.
ghost use Rattle.std.specs.Prelude.{◌≡◌, ℕ, ◌<◌, ◌≤◌, max, length, take, Some, true, false, IfOk, OnOk, OnErr};
ghost use Rattle.std.specs.Result.{result_ok};
ghost use Rattle.mk_io.specs.{Bytes.{Appends, Takes, IsAtEnd, KeepsRoom}, Memory.{Rose, saturating_next, fails_next}};
ghost use Rattle.mk_io.specs.Memory.{new_sink, count_written, after_write, sink_has_room};
ghost use Rattle.mk_io.specs.Memory.{new_source, count_read, after_read, source_never_fails};

use crate::sinks::Sink;
use crate::sources::Source;
use crate::{Failed, NoMemory};
use std::alloc::Global;
use std::marker::Model;

// Which calls fail, and how many calls and faults there were.
#[derive(Drop)]
struct CallPlan {
    fails: Vec<u64>,
    calls: u64,
    faults: u64,
}

impl CallPlan {
    fn new(fails: Vec<u64>) -> CallPlan
        ensures { result ≡ record { fails = fails; calls = 0; faults = 0 } }
    {
        CallPlan {
            fails,
            calls: 0,
            faults: 0,
        }
    }

    // Numbers a call, and returns whether it is one of those that fail.
    fn next_fails(&mut self) -> bool
        ensures answer { result ≡ fails_next self.old.fails.items self.old.calls }
        ensures calls { self.new ≡ record self.old { calls = saturating_next self.old.calls } }
    {
        self.calls = self.calls.saturating_add(1);
        self.fails.as_slice().contains(&self.calls)
    }

    fn count_fault(&mut self)
        ensures { self.new ≡ record self.old { faults = saturating_next self.old.faults } }
    {
        self.faults = self.faults.saturating_add(1);
    }
}

/// A source of bytes in memory.
///
/// A call gives at most `chunk` bytes. Calls are numbered from 1, and each after number 2^64 - 1 has that number too.
/// Those whose number is in `fails` fail.
#[derive(Drop)]
pub struct MemSource {
    bytes: Vec<u8>,
    given: usize,
    chunk: usize,
    plan: CallPlan,
}

impl Model for MemSource {
    ghost use Rattle.std.specs.Prelude.{◌≤◌, drop, vec_len};
    ghost use Rattle.mk_io.specs.Memory.{SourceState};

    ghost Value = { SourceState };

    ghost view = { λ s. record {
      left = drop s.given s.bytes.items;
      chunk = s.chunk;
      fails = s.plan.fails.items;
      calls = s.plan.calls;
      faults = s.plan.faults;
    } };

    ghost invariant = { λ s. (s.given ≤ vec_len s.bytes) × (1 ≤ s.chunk) };
}

impl MemSource {
    /// A source of these bytes, which gives at most `chunk` bytes a call and fails at the calls that `fails` numbers,
    /// from 0.
    pub fn new(bytes: Vec<u8>, chunk: usize, fails: Vec<u64>) -> MemSource
        requires { 1 ≤ chunk }
        ensures { result ≡ new_source bytes.items chunk fails.items }
    {
        MemSource {
            bytes,
            given: 0,
            chunk,
            plan: CallPlan::new(fails),
        }
    }
}

impl Source for MemSource {
    ghost left = { λ s. Some s.left };

    ghost faults = { λ s. s.faults };

    ghost never_fails = { λ s. source_never_fails s };

    fn read(&mut self, buf: &mut [u8]) -> Result<usize, Failed>
        ensures count { result_ok result ≡ count_read self.old (length buf.old) }
        ensures after { self.new ≡ after_read self.old (length buf.old) }

        ensures within { IfOk result (λ n. n ≤ length buf.new) }
        ensures bytes { IfOk result (λ n.
            Takes (Some self.old.left) (Some self.new.left) (take n buf.new)) }
        ensures end { IfOk result (λ n. n ≡ 0 → 0 < length buf.new → IsAtEnd (Some self.old.left)) }
        ensures err { OnErr result (self.new.left ≡ self.old.left) }
        ensures fault { OnErr result (Rose self.old.faults self.new.faults) }
        ensures never_falls { self.old.faults ≤ self.new.faults }
        ensures sound { OnErr result (source_never_fails self.old ≡ false) }
        ensures stays_sound { source_never_fails self.old ≡ true → source_never_fails self.new ≡ true }
    {
        if self.plan.next_fails() {
            self.plan.count_fault();
            return Err(Failed);
        }
        let rest = &self.bytes.as_slice()[self.given..];
        let count = self.chunk.min(buf.len()).min(rest.len());
        buf[..count].copy_from_slice(&rest[..count]);
        self.given += count;
        Ok(count)
    }
}

/// A sink that keeps the bytes that it takes in memory.
///
/// A call takes at most `chunk` bytes, and no more than `reserve` made room for. Calls are numbered from 1, and each
/// after number 2^64 - 1 has that number too. Those whose number is in `fails` fail, and so does a call that brings
/// bytes when no room is left.
#[derive(Drop)]
pub struct MemSink {
    bytes: Vec<u8>,
    // The number of bytes that `reserve` made room for; the `Vec` may have more.
    room: usize,
    chunk: usize,
    plan: CallPlan,
}

impl Model for MemSink {
    ghost use Rattle.std.specs.Prelude.{◌+◌, ◌≤◌, vec_len, vec_capacity};
    ghost use Rattle.mk_io.specs.Memory.{SinkState};

    ghost Value = { SinkState };

    ghost view = { λ s. record {
      taken = s.bytes.items;
      room = s.room;
      chunk = s.chunk;
      fails = s.plan.fails.items;
      calls = s.plan.calls;
      faults = s.plan.faults;
    } };

    ghost invariant = { λ s. (vec_len s.bytes + s.room ≤ vec_capacity s.bytes) × (1 ≤ s.chunk) };
}

impl MemSink {
    /// A sink with no room yet. This takes no memory.
    pub fn new(alloc: Global, chunk: usize, fails: Vec<u64>) -> MemSink
        requires { 1 ≤ chunk }
        ensures { result ≡ new_sink chunk fails.items }
    {
        MemSink {
            bytes: Vec::new(alloc),
            room: 0,
            chunk,
            plan: CallPlan::new(fails),
        }
    }

    /// All bytes that the sink took so far, in order.
    pub fn bytes(&self) -> &[u8]
        ensures { result.now ≡ self.now.taken }
    {
        self.bytes.as_slice()
    }

    /// Makes room for `n` more bytes.
    pub fn reserve(&mut self, n: usize) -> Result<(), NoMemory>
        ensures ok { OnOk result (self.new ≡ record self.old { room = max self.old.room n }) }
        ensures err { OnErr result (self.new ≡ self.old) }

        // It fails only if the room was missing.
        ensures missing { OnErr result (self.old.room < n) }
    {
        if self.bytes.reserve(n).is_err() {
            return Err(NoMemory);
        }
        self.room = self.room.max(n);
        Ok(())
    }
}

impl Sink for MemSink {
    ghost taken = { λ s. Some s.taken };

    ghost faults = { λ s. s.faults };

    ghost has_room = { λ s n. sink_has_room s n };

    fn write(&mut self, bytes: &[u8]) -> Result<usize, Failed>
        ensures count { result_ok result ≡ count_written self.old (length bytes.now) }
        ensures after { self.new ≡ after_write self.old bytes.now }

        ensures within { IfOk result (λ n. n ≤ length bytes.now) }
        ensures progress { IfOk result (λ n. 0 < length bytes.now → 0 < n) }
        ensures bytes { IfOk result (λ n.
            Appends (Some self.old.taken) (Some self.new.taken) (take n bytes.now)) }
        ensures err { OnErr result (self.new.taken ≡ self.old.taken) }
        ensures fault { OnErr result (Rose self.old.faults self.new.faults) }
        ensures never_falls { self.old.faults ≤ self.new.faults }
        ensures room { OnErr result (sink_has_room self.old (length bytes.now) ≡ false) }
        ensures keeps_room { IfOk result (λ n. KeepsRoom (sink_has_room self.old) (sink_has_room self.new) n) }
    {
        if self.plan.next_fails() || (self.room == 0 && !bytes.is_empty()) {
            self.plan.count_fault();
            return Err(Failed);
        }
        let count = self.chunk.min(bytes.len()).min(self.room);
        self.bytes.extend_from_slice(&bytes[..count]).unwrap();
        self.room -= count;
        Ok(count)
    }
}
