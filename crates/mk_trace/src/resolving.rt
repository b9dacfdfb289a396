//! Events by the numbers of their slots.
ghost use Rattle.std.specs.Prelude.{◌≡◌, ◌≢◌, ◌<◌, ◌+◌, ◌^◌, [], length, Ok, Err, IfOk, IfErr};
ghost use Rattle.mk_trace.specs.Grammar.{events_from, AreSlotNumbers};
ghost use Rattle.mk_trace.specs.Grammar as typing;

use crate::faults::TraceStop;
use crate::lines::{Action, EventLine, Slot};
use crate::trace::TraceEvent;
use mk_check::TypeKind;
use std::alloc::{AllocFailed, Global};
use std::collections::HashMap;

/// The events of lines of which the first has this number.
#[tactic(auto, unfolding(crate::specs::Grammar::along))]
pub fn events(
    alloc: Global,
    first: u64,
    slots: &[Slot],
    lines: &[EventLine],
) -> Result<Vec<TraceEvent>, TraceStop>
    requires { first + length lines.now < 2 ^ 64 }
    ensures events { IfOk result (λ events. events_from slots.now first lines.now [] ≡ Ok events.items) }
    ensures fault { IfErr result (λ stop. stop ≢ TraceStop.NoMemory
        → events_from slots.now first lines.now [] ≡ Err stop) }
{
    let numbers = slot_numbers(alloc, slots)?;
    let mut events = Vec::new(alloc);
    for (index, line) in lines.iter().enumerate() {
        match event(slots, &numbers, line) {
            Ok(event) => events.push(event)?,
            Err(kind) => {
                return Err(TraceStop::IllTyped {
                    line: first + index as u64,
                    kind,
                });
            }
        }
    }
    Ok(events)
}

/// The number of each slot, by its name. The first of a name is put in last.
fn slot_numbers<'a>(
    alloc: Global,
    slots: &'a [Slot],
) -> Result<HashMap<&'a [u8], usize>, AllocFailed<(&'a [u8], usize)>>
    ensures { IfOk result (λ numbers. AreSlotNumbers numbers slots.now) }
{
    let mut numbers = HashMap::new(alloc);
    for number in (0..slots.len()).rev() {
        numbers.insert(slots[number].name.as_bytes(), number)?;
    }
    Ok(numbers)
}

/// The event that a line says, where its slot's type admits it.
fn event(
    slots: &[Slot],
    numbers: &HashMap<&[u8], usize>,
    line: &EventLine,
) -> Result<TraceEvent, TypeKind>
    requires { AreSlotNumbers numbers.now slots.now }
    ensures { result ≡ typing.typed_event slots.now line.now }
{
    let Some(number) = numbers.get(&line.slot.as_bytes()).copied() else {
        return Err(TypeKind::NoGlobal);
    };
    event_on(number as u64, slots[number].words, line.action)
}

/// What the action is on the slot of this number, whose objects have this many words.
fn event_on(slot: u64, words: u64, action: Action) -> Result<TraceEvent, TypeKind>
    ensures { result ≡ typing.event_on slot words action }
{
    match action {
        Action::New => Ok(TraceEvent::A(slot)),
        Action::Link => Ok(TraceEvent::K(slot)),
        Action::Free => Ok(TraceEvent::F(slot)),
        Action::Clear => Ok(TraceEvent::C(slot)),
        Action::Write { index, value } => {
            if index >= words {
                return Err(TypeKind::Offset);
            }
            // Word 0 isn't a number.
            if index == 0 {
                return Err(TypeKind::Kind);
            }
            Ok(TraceEvent::W { slot, index, value })
        }
    }
}
