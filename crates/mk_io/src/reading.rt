// Reading all bytes of a source.
ghost use Rattle.std.specs.Prelude.{◌≡◌, ◌≢◌, ◌+◌, ◌≤◌, vec_len, false, IfOk};
ghost use Rattle.mk_io.specs.{Bytes.{TakesAll, TakesCount, TakesAtMost, longest_input}, Memory.Rose};

use crate::sources::Source;
use std::alloc::Global;
use thiserror::Error;

/// How many bytes an input may have: one MiB.
pub const INPUT_LIMIT: usize = 1_048_576;

// How many bytes one call asks for at most.
const CHUNK: usize = 4096;

/// Why an input was not read to its end. The bytes that were taken are dropped.
#[derive(Debug, Clone, Copy, PartialEq, Eq, Error)]
pub enum ReadStop {
    #[error("the input could not be read")]
    ReadFault = 1,
    #[error("the input is longer than 1048576 bytes")]
    TooLong = 2,
    #[error("there is no memory for the input")]
    NoMemory = 3,
}

/// Reads all bytes up to the end of input.
///
/// If the source doesn't say what it has left, the clauses on content say nothing.
pub fn read_all<S: Source>(alloc: Global, source: &mut S) -> Result<Vec<u8>, ReadStop>
    ensures all { IfOk result (λ bytes.
        TakesAll (S.left source.old) (S.left source.new) bytes.items) }
    ensures limit { IfOk result (λ bytes. vec_len bytes ≤ longest_input) }

    // It stops at the first byte past the limit.
    ensures too_long { result ≡ Err ReadStop.TooLong →
        TakesCount (S.left source.old) (S.left source.new) (longest_input + 1) }
    ensures read_fault { result ≡ Err ReadStop.ReadFault →
        TakesAtMost (S.left source.old) (S.left source.new) longest_input }
    ensures no_memory { result ≡ Err ReadStop.NoMemory →
        TakesAtMost (S.left source.old) (S.left source.new) longest_input }
    ensures fault { result ≡ Err ReadStop.ReadFault →
        Rose (S.faults source.old) (S.faults source.new) }

    // No call failed before any other answer.
    ensures no_fault { result ≢ Err ReadStop.ReadFault →
        S.faults source.new ≡ S.faults source.old }
    ensures never_falls { S.faults source.old ≤ S.faults source.new }

    // A source that never fails is read.
    ensures sound { result ≡ Err ReadStop.ReadFault → S.never_fails source.old ≡ false }
{
    let mut bytes = Vec::new(alloc);
    let mut buffer = [0u8; CHUNK];
    loop {
        let want = CHUNK.min(INPUT_LIMIT + 1 - bytes.len());
        let part = &mut buffer[..want];
        let count = match source.read(part) {
            Ok(count) => count,
            Err(_) => return Err(ReadStop::ReadFault),
        };
        if count == 0 {
            return Ok(bytes);
        }
        if count > INPUT_LIMIT - bytes.len() {
            return Err(ReadStop::TooLong);
        }
        if bytes.extend_from_slice(&part[..count]).is_err() {
            return Err(ReadStop::NoMemory);
        }
    }
}
