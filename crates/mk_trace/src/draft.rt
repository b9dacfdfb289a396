//! What the lines so far say.
ghost use Rattle.std.specs.{Prelude.{◌≡◌, ◌∷◌, OnOk, position}, Str.bytes_eq};
ghost use Rattle.mk_script.specs.Grammar.{texts_of};
ghost use Rattle.mk_trace.specs.declared.lines.Slot.{Slot};
ghost use Rattle.mk_trace.specs.Lines as spec;

use crate::lines::{EventLine, Line, Slot, WORD, event, name, number};
use mk_script::{LineFault, Name, TextKind, Which, at_most, within};
use std::alloc::{AllocError, Global};
use std::marker::Model;

/// The slots and the events of the lines so far.
#[derive(Drop)]
pub struct Draft {
    slots: Vec<Slot>,
    events: Vec<EventLine>,
}

impl Model for Draft {
    ghost use Rattle.mk_trace.specs.Lines.{LinesSoFar};

    ghost Value = { LinesSoFar };

    ghost view = { λ d. record { slots = d.slots.items; events = d.events.items } };
}

impl Draft {
    /// Nothing written yet.
    pub fn new(alloc: Global) -> Draft
        ensures { result ≡ spec.nothing_written }
    {
        Draft {
            slots: Vec::new(alloc),
            events: Vec::new(alloc),
        }
    }

    /// The slots that are declared.
    pub fn slots(&self) -> &[Slot]
        ensures { result.now ≡ self.now.slots }
    {
        self.slots.as_slice()
    }

    /// The events, in order.
    pub fn events(&self) -> &[EventLine]
        ensures { result.now ≡ self.now.events }
    {
        self.events.as_slice()
    }

    /// What a line of these words says after these.
    pub fn line(&self, words: &[&[u8]]) -> Result<Line, LineFault>
        ensures { result ≡ spec.trace_line_of self.now (texts_of words.now) }
    {
        let [word, operands @ ..] = words else {
            return Err(WORD);
        };
        if *word == b"slot".as_slice() {
            self.slot_line(operands)
        } else {
            self.event_line(word, operands)
        }
    }

    fn slot_line(&self, operands: &[&[u8]]) -> Result<Line, LineFault>
        ensures { result ≡ spec.slot_line self.now (texts_of operands.now) }
    {
        let [slot, words] = operands else {
            return Err(WORD);
        };
        if !self.events.is_empty() {
            return Err(WORD);
        }
        let slot = Slot {
            name: name(slot)?,
            words: number(words)?,
        };
        Ok(Line::Slot(checked_slot(&self.slots, slot)?))
    }

    fn event_line(&self, word: &[u8], operands: &[&[u8]]) -> Result<Line, LineFault>
        ensures { result ≡ spec.event_line self.now word.now (texts_of operands.now) }
    {
        if self.slots.is_empty() {
            return Err(WORD);
        }
        let event = event(word, operands)?;
        Ok(Line::Event(event))
    }

    /// Adds a line.
    pub fn push(&mut self, line: Line) -> Result<(), AllocError>
        ensures { OnOk result (self.new ≡ spec.with_trace_line self.old line) }
    {
        match line {
            Line::Slot(slot) => self.slots.push(slot)?,
            Line::Event(event) => self.events.push(event)?,
        }
        Ok(())
    }
}

/// The number of the slot of this name.
pub fn slot_number(slots: &[Slot], name: &Name) -> Option<usize>
    ensures { result ≡ spec.slot_number slots.now name.now }
{
    slots.iter().position(|slot| name.is(&slot.name))
}

/// The slot, where it may stand after these.
fn checked_slot(slots: &[Slot], slot: Slot) -> Result<Slot, LineFault>
    ensures { result ≡ spec.checked_slot slots.now slot }
{
    if slot_number(slots, &slot.name).is_some() {
        return Err(LineFault::Text(TextKind::Twice));
    }
    let count = at_most(slots.len() as u64 + 1, 64, Which::Types);
    match count.or(within(1, slot.words, 4096, Which::Words)) {
        None => Ok(slot),
        Some(fault) => Err(fault),
    }
}
