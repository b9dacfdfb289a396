//! Traces.
ghost use Rattle.std.specs.Prelude.{◌≡◌, ◌<◌, length, get_or};
ghost use Rattle.mk_trace.specs.Grammar.{slot_of, contents_from, IsOfSomeTraceText};

use std::marker::Model;

/// What a trace does with a slot. Slots are numbered from 0, in the order of their lines.
#[derive(Clone, Copy, Debug, PartialEq, Eq)]
pub enum TraceEvent {
    /// The slot points to a new object.
    A(u64),
    /// The slot points to a new object, whose word 0 holds the slot's old pointer.
    K(u64),
    /// The slot's object is freed.
    F(u64),
    /// The slot becomes null.
    C(u64),
    /// A number is stored into a word of the slot's object.
    W { slot: u64, index: u64, value: u64 },
}

impl TraceEvent {
    /// The number of its slot.
    pub fn slot(self) -> u64
        ensures { result ≡ slot_of self }
    {
        match self {
            TraceEvent::A(slot) | TraceEvent::K(slot) | TraceEvent::F(slot) | TraceEvent::C(slot) =>
                { slot }
            TraceEvent::W { slot, .. } => slot,
        }
    }
}

/// A trace of some text: its heap's pages and how many of them may be resident, how many words the objects of
/// each slot have, and what is done with the slots.
#[derive(Drop)]
pub struct Trace {
    pages: u64,
    resident: u64,
    slots: Vec<u64>,
    events: Vec<TraceEvent>,
}

impl Model for Trace {
    ghost use Rattle.mk_trace.specs.Grammar.{Contents, contents_from, IsOfSomeTraceText};

    ghost Value = { Contents };

    ghost view = { λ t. contents_from t.pages t.resident t.slots.items t.events.items };

    ghost invariant = { λ t. IsOfSomeTraceText (contents_from t.pages t.resident t.slots.items t.events.items) };
}

impl Trace {
    /// Its parts, which are those of some text.
    pub(crate) fn from_parts(
        pages: u64,
        resident: u64,
        slots: Vec<u64>,
        events: Vec<TraceEvent>,
    ) -> Trace
        requires { IsOfSomeTraceText (contents_from pages resident slots.items events.items) }
        ensures { result ≡ contents_from pages resident slots.items events.items }
    {
        Trace {
            pages,
            resident,
            slots,
            events,
        }
    }

    /// The pages of its heap.
    pub fn pages(&self) -> u64
        ensures pages { result ≡ self.now.pages }
        ensures of_some_text { IsOfSomeTraceText self.now }
    {
        self.pages
    }

    /// How many of them may be resident.
    pub fn resident(&self) -> u64
        ensures resident { result ≡ self.now.resident }
        ensures of_some_text { IsOfSomeTraceText self.now }
    {
        self.resident
    }

    /// How many words the objects of each slot have.
    pub fn slots(&self) -> &[u64]
        ensures slots { result.now ≡ self.now.slots }
        ensures of_some_text { IsOfSomeTraceText self.now }
    {
        self.slots.as_slice()
    }

    /// How many words the objects of one of its slots have.
    pub fn words_of(&self, slot: u64) -> u64
        requires { slot < length self.now.slots }
        ensures words { result ≡ get_or self.now.slots slot 0 }
        ensures of_some_text { IsOfSomeTraceText self.now }
    {
        self.slots[slot as usize]
    }

    /// Its events, in the order of their lines.
    pub fn events(&self) -> &[TraceEvent]
        ensures events { result.now ≡ self.now.events }
        ensures of_some_text { IsOfSomeTraceText self.now }
    {
        self.events.as_slice()
    }
}
