//! The reader.
ghost use Rattle.std.specs.Prelude.{◌≡◌, ◌≢◌, ◌≤◌, ◌<◌, ◌+◌, ◌^◌, ℕ, List, length, Ok, Err, IfOk, IfErr};
ghost use Rattle.mk_script.specs.Grammar.{texts_of, lines_of};
ghost use Rattle.mk_trace.specs.{Grammar.{written_from, trace_of, contents_of}, Lines.nothing_written};
ghost use Rattle.mk_trace.specs.Grammar as spec;

use crate::draft::Draft;
use crate::faults::TraceStop;
use crate::lines::{HeapPages, Slot, header};
use crate::resolving::events;
use crate::trace::Trace;
use mk_script::{TEXT_LIMIT, TOO_LONG, TextKind, Which, replace_words, split_lines, split_words};
use std::alloc::{AllocError, Global};

/// The trace of a text, or its first fault: that of the first line that isn't of the grammar or passes a limit, and
/// where there is none, that of the first event that isn't well typed. `NoMemory` says nothing of the text.
pub fn parse_trace(alloc: Global, bytes: &[u8]) -> Result<Trace, TraceStop>
    ensures trace { IfOk result (λ trace. trace_of bytes.now ≡ Ok trace) }
    ensures fault { IfErr result (λ stop. stop ≢ TraceStop.NoMemory → trace_of bytes.now ≡ Err stop) }
{
    if bytes.len() > TEXT_LIMIT {
        return Err(TraceStop::at_line(0, TOO_LONG));
    }
    let lines = split_lines(alloc, bytes)?;
    let [first, lines @ ..] = lines.as_slice() else {
        return Err(TraceStop::Text {
            line: 1,
            kind: TextKind::Header,
        });
    };
    let words = split_words(alloc, first)?;
    let heap = match header(&words) {
        Ok(heap) => heap,
        Err(fault) => return Err(TraceStop::at_line(1, fault)),
    };
    let draft = read_lines(alloc, lines)?;
    at_end(alloc, heap, &draft)
}

/// The lines after the first.
#[tactic(auto, unfolding(crate::specs::Grammar::along))]
fn read_lines(alloc: Global, lines: &[&[u8]]) -> Result<Draft, TraceStop>
    ensures draft { IfOk result (λ draft. written_from 2 (texts_of lines.now) nothing_written ≡ Ok draft) }
    ensures fault { IfErr result (λ stop. stop ≢ TraceStop.NoMemory
        → written_from 2 (texts_of lines.now) nothing_written ≡ Err stop) }
{
    let mut draft = Draft::new(alloc);
    let mut words = Vec::new(alloc);
    for (index, line) in lines.iter().enumerate() {
        replace_words(&mut words, line)?;
        match draft.line(&words) {
            Ok(line) => draft.push(line)?,
            Err(fault) => return Err(TraceStop::at_line(index as u64 + 2, fault)),
        }
    }
    Ok(draft)
}

/// The trace, where all lines are of the grammar.
fn at_end(alloc: Global, heap: HeapPages, draft: &Draft) -> Result<Trace, TraceStop>
    requires { (text : List ℕ) × (trace_of text ≡ contents_of heap draft.now) }
    ensures trace { IfOk result (λ trace. contents_of heap draft.now ≡ Ok trace) }
    ensures fault { IfErr result (λ stop. stop ≢ TraceStop.NoMemory → contents_of heap draft.now ≡ Err stop) }
{
    let slots = draft.slots();
    if slots.is_empty() {
        return Err(TraceStop::Limit {
            line: 1,
            which: Which::Types,
            found: 0,
        });
    }
    let events = events(alloc, slots.len() as u64 + 2, slots, draft.events())?;
    let words = words_of_slots(alloc, slots)?;
    Ok(Trace::from_parts(heap.pages, heap.resident, words, events))
}

/// How many words the objects of each slot have.
fn words_of_slots(alloc: Global, slots: &[Slot]) -> Result<Vec<u64>, AllocError>
    ensures { IfOk result (λ words. words.items ≡ spec.words_of_slots slots.now) }
{
    slots.iter().map(|slot| slot.words).collect(alloc)
}
