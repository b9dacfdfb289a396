//! The reader of a script part and a schedule.
ghost use Rattle.std.specs.Prelude.{◌≡◌, ◌≢◌, ◌<◌, ◌≤◌, ◌+◌, ◌^◌, length, Ok, Err, IfOk, IfErr, MatchOption};
ghost use Rattle.mk_script.specs.Grammar.{longest_text, lines_of, texts_of};
ghost use Rattle.mk_replay.specs.Schedules.{StandsAt, HasNone, replay_of, entries_of_lines};
ghost use Rattle.mk_replay.specs.Schedules as spec;

use crate::lines::LineReader;
use crate::schedule::{Entry, Schedule};
use mk_script::{
    Program, TEXT_LIMIT, TOO_LONG, TextKind, TextStop, parse, replace_words, split_lines,
};
use std::alloc::{AllocError, Global};

/// The program and the schedule of a text, or its first fault, those of the script part before those
/// after it. `NoMemory` says nothing of the text.
pub fn parse_replay(alloc: Global, bytes: &[u8]) -> Result<(Program, Schedule), TextStop>
    ensures parts { IfOk result (λ parts. replay_of bytes.now ≡ Ok parts) }
    ensures fault { IfErr result (λ stop. stop ≢ TextStop.NoMemory → replay_of bytes.now ≡ Err stop) }
{
    if bytes.len() > TEXT_LIMIT {
        return Err(TextStop::at_line(0, TOO_LONG));
    }
    let lines = split_lines(alloc, bytes)?;
    match schedule_place(alloc, &lines)? {
        Some(place) => read_parts(alloc, bytes, &lines, place),
        None => {
            parse(alloc, bytes)?;
            Err(TextStop::Text {
                line: lines.len() as u64,
                kind: TextKind::End,
            })
        }
    }
}

/// The program and the schedule of a text whose schedule line stands at this place of its lines.
fn read_parts(
    alloc: Global,
    bytes: &[u8],
    lines: &[&[u8]],
    place: usize,
) -> Result<(Program, Schedule), TextStop>
    requires short { length bytes.now ≤ longest_text }
    requires lines { texts_of lines.now ≡ lines_of bytes.now }
    requires place { StandsAt (lines_of bytes.now) place }
    ensures parts { IfOk result (λ parts. replay_of bytes.now ≡ Ok parts) }
    ensures fault { IfErr result (λ stop. stop ≢ TextStop.NoMemory → replay_of bytes.now ≡ Err stop) }
{
    let end = text_length(&lines[..place]);
    let program = parse(alloc, &bytes[..end])?;
    let entries = entries(alloc, place as u64 + 2, &lines[place + 1..])?;
    Ok((program, Schedule { entries }))
}

/// The place of the first line whose only word is `schedule`.
fn schedule_place(alloc: Global, lines: &[&[u8]]) -> Result<Option<usize>, AllocError>
    ensures { IfOk result (λ place. MatchOption place (HasNone (texts_of lines.now)) (StandsAt (texts_of lines.now))) }
{
    let mut words = Vec::new(alloc);
    for (place, line) in lines.iter().enumerate() {
        if is_schedule_line(&mut words, line)? {
            return Ok(Some(place));
        }
    }
    Ok(None)
}

/// Its words take the place of those of another.
fn is_schedule_line<'a>(words: &mut Vec<&'a [u8]>, line: &'a [u8]) -> Result<bool, AllocError>
    ensures { IfOk result (λ is. is ≡ spec.is_schedule_line line.now) }
{
    replace_words(words, line)?;
    match words.as_slice() {
        [word] => Ok(*word == b"schedule".as_slice()),
        _ => Ok(false),
    }
}

/// The length of these lines of a text, each with its newline.
fn text_length(lines: &[&[u8]]) -> usize
    requires { spec.text_length (texts_of lines.now) < 2 ^ 64 }
    ensures { result ≡ spec.text_length (texts_of lines.now) }
{
    let mut length = 0;
    for line in lines {
        length += line.len() + 1;
    }
    length
}

/// The events of lines, the first of which has this number.
#[tactic(auto, unfolding(crate::specs::Schedules::entries_of_lines))]
fn entries(alloc: Global, first: u64, lines: &[&[u8]]) -> Result<Vec<Entry>, TextStop>
    requires { first + length lines.now < 2 ^ 64 }
    ensures entries { IfOk result (λ entries. entries_of_lines first (texts_of lines.now) ≡ Ok entries.items) }
    ensures fault { IfErr result (λ stop. stop ≢ TextStop.NoMemory
        → entries_of_lines first (texts_of lines.now) ≡ Err stop) }
{
    let mut reader = LineReader::new(alloc);
    let mut entries = Vec::new(alloc);
    for (index, text) in lines.iter().enumerate() {
        let line = first + index as u64;
        if let Err(stop) = reader.read(line, text, &mut entries) {
            return Err(stop);
        }
    }
    Ok(entries)
}
