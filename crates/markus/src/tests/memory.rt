//! Calls that take memory and aren't made by the command, and readers and writers that fail.

use mk_io::{Failed, ReadStop, Sink, Source, StdinSource, StdoutSink, read_all, write_all};
use mk_never::{Kind, NeverHeap, NoMemory, Op, Reply, TypeTable};
use std::alloc::Global;
use std::io::{self, ErrorKind, Read, Write};

/// Whether what was freed keeps its number on a heap that never reuses storage, and isn't freed twice.
fn never_reuses(alloc: Global) -> Result<bool, NoMemory> {
    let mut types = TypeTable::new(alloc);
    types.add([Kind::Num].to_vec(alloc)?)?;
    let mut heap = NeverHeap::start(alloc, &types, 1)?;
    let new = Op::New {
        d: 0,
        ty: 0,
        full: false,
    };
    let free = Op::Free { p: 0 };
    let made = heap.apply(0, new)?;
    let stored = heap.apply(0, Op::SetNum { q: 0, i: 0, n: 7 })?;
    let freed = heap.apply(0, free)?;
    let loaded = heap.apply(0, Op::GetNum { q: 0, i: 0 })?;
    let again = heap.apply(0, free)?;
    let are_done = (made, stored, freed) == (Reply::Done, Reply::Done, Reply::Done);
    Ok(are_done && (loaded, again) == (Reply::Num(7), Reply::Double))
}

#[test]
fn never_reuses_in_memory(rt: HostRuntime) {
    assert!(rt; matches!(never_reuses(rt.alloc()), Ok(true)));
}

#[test]
fn refusals_of_a_reader_have_numbers(rt: HostRuntime) {
    assert_eq!(rt;
        (ReadStop::ReadFault as u8, ReadStop::TooLong as u8),
        (1, 2)
    );
}

/// A reader that gives a byte at a time, as many as `left`, and then an error.
#[derive(Drop)]
struct BrokenReader {
    left: u64,
}

impl Read for BrokenReader {
    fn read(&mut self, buf: &mut [u8]) -> io::Result<usize> {
        if self.left == 0 || buf.is_empty() {
            return Err(io::Error::from(ErrorKind::Other));
        }
        self.left -= 1;
        buf[0] = b'x';
        Ok(1)
    }
}

/// A writer that takes no byte, or answers an error.
#[derive(Drop)]
struct StuckWriter {
    is_broken: bool,
}

impl Write for StuckWriter {
    fn write(&mut self, _buf: &[u8]) -> io::Result<usize> {
        if self.is_broken {
            return Err(io::Error::from(ErrorKind::Other));
        }
        Ok(0)
    }

    fn flush(&mut self) -> io::Result<()> {
        Ok(())
    }
}

const PANGRAM: &[u8] = b"Sphinx of black quartz.\n";

fn stop_after(alloc: Global, left: u64) -> Option<ReadStop> {
    read_all(alloc, &mut StdinSource::new(BrokenReader { left })).err()
}

#[test]
fn readers_pass_on_bytes_and_errors(rt: HostRuntime) {
    let bytes = read_all(rt.alloc(), &mut StdinSource::new(PANGRAM)).expect(&rt, "memory");
    assert!(rt; bytes.as_slice() == PANGRAM);
    let stops = (stop_after(rt.alloc(), 0), stop_after(rt.alloc(), 3));
    assert!(rt; stops == (Some(ReadStop::ReadFault), Some(ReadStop::ReadFault)));
}

fn is_stuck(is_broken: bool) -> bool {
    write_all(&mut StdoutSink::new(StuckWriter { is_broken }), PANGRAM).is_err()
}

#[test]
fn writers_pass_on_errors(rt: HostRuntime) {
    assert!(rt; write_all(&mut StdoutSink::new(Vec::new(rt.alloc())), PANGRAM).is_ok());
    assert!(rt; is_stuck(false) & is_stuck(true));
}

/// A stream whose first call answers an error, and whose others move all bytes.
#[derive(Drop)]
struct Stumbling {
    calls: u64,
}

impl Read for Stumbling {
    fn read(&mut self, buf: &mut [u8]) -> io::Result<usize> {
        self.calls = self.calls.saturating_add(1);
        if self.calls == 1 {
            return Err(io::Error::from(ErrorKind::Other));
        }
        Ok(buf.len())
    }
}

impl Write for Stumbling {
    fn write(&mut self, buf: &[u8]) -> io::Result<usize> {
        self.calls = self.calls.saturating_add(1);
        if self.calls == 1 {
            return Err(io::Error::from(ErrorKind::Other));
        }
        Ok(buf.len())
    }

    fn flush(&mut self) -> io::Result<()> {
        Ok(())
    }
}

/// Whether a call moves all bytes of a buffer of this length.
fn moves_all(
    alloc: Global,
    source: &mut StdinSource<Stumbling>,
    sink: &mut StdoutSink<Stumbling>,
    len: usize,
) -> Option<bool> {
    let mut buffer = "x".repeat(alloc, len).ok()?.into_bytes();
    Some(source.read(&mut buffer) == Ok(len) && sink.write(&buffer) == Ok(len))
}

/// An error isn't tried again, and a call moves as much as the reader or the writer does.
#[test]
fn streams_make_one_call_of_each(rt: HostRuntime) {
    let mut source = StdinSource::new(Stumbling { calls: 0 });
    let mut sink = StdoutSink::new(Stumbling { calls: 0 });
    let mut buffer = [0; 4];
    assert!(rt; source.read(&mut buffer) == Err(Failed));
    assert!(rt; sink.write(&buffer) == Err(Failed));
    for len in [1, 4096, 4097, 1_048_576] {
        let found = moves_all(rt.alloc(), &mut source, &mut sink, len);
        assert!(rt; found == Some(true), "{len} bytes");
    }
}
