//! The events of a line.
ghost use Rattle.std.specs.Prelude.{◌≡◌, ◌≢◌, ◌∷◌, [], ◌++◌, map, IfOk, OnOk, MatchOption, MatchResult, Ok, Err};
ghost use Rattle.mk_script.specs.Grammar.{texts_of, words_of_line};
ghost use Rattle.mk_replay.specs.Forms as spec;
ghost use Rattle.mk_replay.specs.Schedules.{pieces_of, entries_from, entries_of_pieces, entries_of_line};
ghost use Rattle.mk_replay.specs.Schedules.{AddsEntries, IsFaultOf, IsEndOfPiece, forms_so_far, forms_with, with_form};

use crate::forms::{form, seat};
use crate::schedule::Entry;
use mk_core::{Seat, Step};
use mk_script::{TextKind, TextStop, replace_words};
use std::alloc::{AllocError, Global};

/// Reads lines, each in the room of the one before it.
#[derive(Drop)]
pub(crate) struct LineReader<'a> {
    pieces: Vec<&'a [u8]>,
    words: Vec<&'a [u8]>,
    forms: Vec<Step>,
}

impl<'a> LineReader<'a> {
    pub(crate) fn new(alloc: Global) -> LineReader<'a> {
        LineReader {
            pieces: Vec::new(alloc),
            words: Vec::new(alloc),
            forms: Vec::new(alloc),
        }
    }

    /// Appends the events of a line of this number.
    pub(crate) fn read(
        &mut self,
        line: u64,
        text: &'a [u8],
        entries: &mut Vec<Entry>,
    ) -> Result<(), TextStop>
        ensures { MatchResult result
            (λ _. AddsEntries (entries_of_line line text.now) entries.old.items entries.new.items)
            (λ stop. stop ≢ TextStop.NoMemory → IsFaultOf line (entries_of_line line text.now) stop) }
    {
        replace_pieces(&mut self.pieces, text)?;
        let [first, others @ ..] = self.pieces.as_slice() else {
            return Err(TextStop::Text {
                line,
                kind: TextKind::Word,
            });
        };
        replace_words(&mut self.words, first)?;
        read_words(&mut self.words, &mut self.forms, line, others, entries)
    }
}

/// Puts the pieces of a line, which is cut at each `; `, in the place of those of another.
fn replace_pieces<'a>(pieces: &mut Vec<&'a [u8]>, text: &'a [u8]) -> Result<(), AllocError>
    ensures { OnOk result (texts_of pieces.new.items ≡ pieces_of text.now) }
{
    pieces.clear();
    let mut rest = text;
    while let Some(end) = end_of_piece(rest) {
        pieces.push(&rest[..end])?;
        rest = &rest[end + 2..];
    }
    Ok(pieces.push(rest)?)
}

/// Where the first `; ` begins.
fn end_of_piece(text: &[u8]) -> Option<usize>
    ensures { MatchOption result (pieces_of text.now ≡ text.now ∷ []) (IsEndOfPiece text.now) }
{
    for end in 0..text.len() {
        if text[end..].starts_with(b"; ".as_slice()) {
            return Some(end);
        }
    }
    None
}

/// Reads a line whose first piece has these words. Those of the other pieces take their place.
fn read_words<'a>(
    words: &mut Vec<&'a [u8]>,
    forms: &mut Vec<Step>,
    line: u64,
    others: &[&'a [u8]],
    entries: &mut Vec<Entry>,
) -> Result<(), TextStop>
    ensures { let expected =
        entries_of_pieces line (texts_of words.old.items ∷ map words_of_line (texts_of others.now)) in
        MatchResult result (λ _. AddsEntries expected entries.old.items entries.new.items)
        (λ stop. stop ≢ TextStop.NoMemory → IsFaultOf line expected stop) }
{
    let [name, operands @ ..] = words.as_slice() else {
        return Err(TextStop::Text {
            line,
            kind: TextKind::Word,
        });
    };
    let seat = seat(name);
    let first = form(operands);
    let kind = match (seat, replace_forms(words, forms, first, others)?) {
        (Ok(seat), None) => return Ok(push_entries(entries, line, seat, forms)?),
        (Ok(_), Some(kind)) => kind,
        (Err(kind), None) => kind,
        (Err(first), Some(second)) => worse_fault(first, second),
    };
    Err(TextStop::Text { line, kind })
}

/// Puts the forms of a line, of which this is the first piece's, in the place of those of another, or returns its
/// fault.
fn replace_forms<'a>(
    words: &mut Vec<&'a [u8]>,
    forms: &mut Vec<Step>,
    first: Result<Step, TextKind>,
    others: &[&'a [u8]],
) -> Result<Option<TextKind>, AllocError>
    ensures { IfOk result (λ fault. forms_so_far fault forms.new.items ≡ forms_with first (texts_of others.now)) }
{
    forms.clear();
    let mut fault = add_form(forms, None, first)?;
    for piece in others {
        replace_words(words, piece)?;
        fault = add_form(forms, fault, form(words))?;
    }
    Ok(fault)
}

/// Adds a piece's form after those so far. Where there is a fault, it returns the one to be named.
fn add_form(
    forms: &mut Vec<Step>,
    fault: Option<TextKind>,
    found: Result<Step, TextKind>,
) -> Result<Option<TextKind>, AllocError>
    ensures { IfOk result (λ fault'. forms_so_far fault' forms.new.items
        ≡ with_form (forms_so_far fault forms.old.items) found) }
{
    match (fault, found) {
        (None, Ok(form)) => {
            forms.push(form)?;
            Ok(None)
        }
        (None, Err(kind)) => Ok(Some(kind)),
        (Some(kind), Ok(_)) => Ok(Some(kind)),
        (Some(first), Err(second)) => Ok(Some(worse_fault(first, second))),
    }
}

/// The fault to be named of two in a line.
fn worse_fault(first: TextKind, second: TextKind) -> TextKind
    ensures { result ≡ spec.worse_fault first second }
{
    if second == TextKind::Word {
        second
    } else {
        first
    }
}

fn push_entries(
    entries: &mut Vec<Entry>,
    line: u64,
    seat: Seat,
    forms: &[Step],
) -> Result<(), AllocError>
    ensures { OnOk result (entries.new.items ≡ entries.old.items ++ entries_from line 1 seat forms.now) }
{
    for (index, form) in forms.iter().enumerate() {
        entries.push(Entry {
            seat,
            form: *form,
            line,
            place: index as u64 + 1,
        })?;
    }
    Ok(())
}
