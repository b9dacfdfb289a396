// Sources and sinks over the readers and writers of std, as a program's standard input and output.
ghost use Rattle.std.specs.Prelude.{◌≡◌, ◌<◌, ◌≤◌, length, take, true, false, IfOk, OnErr, IsSome, is_err};
ghost use Rattle.std.specs.Prelude.{if◌then◌else◌};
ghost use Rattle.std.specs.Io.KnownBytes.{ReadConsumes, WriteAppends};
ghost use Rattle.mk_io.specs.{Bytes.{Appends, IsAtEnd, Takes}, Memory.{Rose, saturating_next}};
ghost use Rattle.mk_io.specs.Bytes.{new_stream, told};

use crate::Failed;
use crate::sinks::Sink;
use crate::sources::Source;
use std::io::{Read, Write};
use std::marker::Model;

/// A source over a reader, as standard input.
///
/// Each `read` is one read of the reader, and fails if that answers an error. One that `new` makes doesn't tell the
/// bytes that are left, and one that `telling` makes tells just those that its reader tells.
#[derive(Drop)]
pub struct StdinSource<T: Read> {
    reader: T,
    // Whether it tells what the reader has left. No code reads it.
    tells: bool,
    faults: u64,
}

impl<T: Read> Model for StdinSource<T> {
    ghost use Rattle.std.specs.Prelude.{◌≡◌, true, IsSome};
    ghost use Rattle.mk_io.specs.Bytes.{Stream};

    ghost Value = { Stream };

    ghost view = { λ s. record { known = T.remaining s.reader; tells = s.tells; faults = s.faults } };

    ghost invariant = { λ s. s.tells ≡ true → IsSome (T.remaining s.reader) };
}

impl<T: Read> StdinSource<T> {
    /// A source that tells nothing, over any reader.
    pub fn new(reader: T) -> StdinSource<T>
        ensures { result ≡ new_stream false (T.remaining reader) }
    {
        StdinSource {
            reader,
            tells: false,
            faults: 0,
        }
    }

    /// A source that tells what its reader tells: as a slice of bytes or a `Cursor`, all that is left.
    pub fn telling(reader: T) -> StdinSource<T>
        requires { IsSome (T.remaining reader) }
        ensures { result ≡ new_stream true (T.remaining reader) }
    {
        StdinSource {
            reader,
            tells: true,
            faults: 0,
        }
    }
}

impl<T: Read> Source for StdinSource<T> {
    ghost left = { λ s. told s };

    ghost faults = { λ s. s.faults };

    ghost never_fails = { λ _. false };

    fn read(&mut self, buf: &mut [u8]) -> Result<usize, Failed>
        // What the reader gives is passed on.
        ensures known { ReadConsumes self.old.known self.new.known result buf.new }
        ensures counted { self.new.faults ≡
            (if is_err result then saturating_next self.old.faults else self.old.faults) }

        ensures within { IfOk result (λ n. n ≤ length buf.new) }
        ensures bytes { IfOk result (λ n. Takes (told self.old) (told self.new) (take n buf.new)) }
        ensures end { IfOk result (λ n. n ≡ 0 → 0 < length buf.new → IsAtEnd (told self.old)) }
        ensures err { OnErr result (told self.new ≡ told self.old) }
        ensures fault { OnErr result (Rose self.old.faults self.new.faults) }
        ensures never_falls { self.old.faults ≤ self.new.faults }
    {
        match self.reader.read(buf) {
            Ok(count) => Ok(count),
            Err(_) => {
                self.faults = self.faults.saturating_add(1);
                Err(Failed)
            }
        }
    }
}

/// A sink over a writer, as standard output.
///
/// Each `write` is one write of the writer. It fails if that answers an error, or takes none of some bytes. `Ok` says
/// that the writer was handed the bytes. Nothing is flushed: std's standard output keeps no byte back, and the owner of
/// a writer that does, as a `BufWriter`, has to flush it. One that `new` makes doesn't tell the bytes that it took, and
/// one that `telling` makes tells just those that its writer tells.
#[derive(Drop)]
pub struct StdoutSink<T: Write> {
    writer: T,
    // Whether it tells what the writer took. No code reads it.
    tells: bool,
    faults: u64,
}

impl<T: Write> Model for StdoutSink<T> {
    ghost use Rattle.std.specs.Prelude.{◌≡◌, true, IsSome};
    ghost use Rattle.mk_io.specs.Bytes.{Stream};

    ghost Value = { Stream };

    ghost view = { λ s. record { known = T.contents s.writer; tells = s.tells; faults = s.faults } };

    ghost invariant = { λ s. s.tells ≡ true → IsSome (T.contents s.writer) };
}

impl<T: Write> StdoutSink<T> {
    /// A sink that tells nothing, over any writer.
    pub fn new(writer: T) -> StdoutSink<T>
        ensures { result ≡ new_stream false (T.contents writer) }
    {
        StdoutSink {
            writer,
            tells: false,
            faults: 0,
        }
    }

    /// A sink that tells what its writer tells: as a `Vec` of bytes or a `Cursor`, all that it took.
    pub fn telling(writer: T) -> StdoutSink<T>
        requires { IsSome (T.contents writer) }
        ensures { result ≡ new_stream true (T.contents writer) }
    {
        StdoutSink {
            writer,
            tells: true,
            faults: 0,
        }
    }
}

impl<T: Write> Sink for StdoutSink<T> {
    ghost taken = { λ s. told s };

    ghost faults = { λ s. s.faults };

    ghost has_room = { λ _ _. false };

    fn write(&mut self, bytes: &[u8]) -> Result<usize, Failed>
        // What the writer takes is taken.
        ensures known { WriteAppends self.old.known self.new.known result bytes.now }
        ensures counted { self.new.faults ≡
            (if is_err result then saturating_next self.old.faults else self.old.faults) }

        ensures within { IfOk result (λ n. n ≤ length bytes.now) }
        ensures progress { IfOk result (λ n. 0 < length bytes.now → 0 < n) }
        ensures bytes { IfOk result (λ n. Appends (told self.old) (told self.new) (take n bytes.now)) }
        ensures err { OnErr result (told self.new ≡ told self.old) }
        ensures fault { OnErr result (Rose self.old.faults self.new.faults) }
        ensures never_falls { self.old.faults ≤ self.new.faults }
    {
        match self.writer.write(bytes) {
            Ok(count) if count > 0 || bytes.is_empty() => Ok(count),
            _ => {
                self.faults = self.faults.saturating_add(1);
                Err(Failed)
            }
        }
    }
}
