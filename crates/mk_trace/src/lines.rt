//! The lines of a trace's text, by their words.
ghost use Rattle.std.specs.Prelude.{◌≡◌, ◌∷◌, []};
ghost use Rattle.mk_script.specs.Operands as operands;
ghost use Rattle.mk_script.specs.Grammar.{texts_of};
ghost use Rattle.mk_trace.specs.Lines as spec;
ghost use lib.Chars.{codes};

use mk_script::{LineFault, Name, TextKind, heap_limit, parse_number};

/// `trace PAGES RESIDENT`
#[derive(Clone, Copy)]
pub struct HeapPages {
    pub pages: u64,
    pub resident: u64,
}

/// `slot S WORDS`
#[derive(Drop)]
pub struct Slot {
    pub name: Name,
    pub words: u64,
}

/// What an event does with its slot.
#[derive(Clone, Copy)]
pub enum Action {
    /// `a`: a new object.
    New,
    /// `k`: a new object that points to the old one.
    Link,
    /// `f`: the slot's object is freed.
    Free,
    /// `c`: the slot becomes null.
    Clear,
    /// `w`: a number is stored in a word of the slot's object.
    Write { index: u64, value: u64 },
}

/// An event's line.
#[derive(Drop)]
pub struct EventLine {
    pub slot: Name,
    pub action: Action,
}

/// A line after the first.
#[derive(Drop)]
pub enum Line {
    Slot(Slot),
    Event(EventLine),
}

/// A line that has no such form, or stands in a wrong place.
pub const WORD: LineFault = LineFault::Text(TextKind::Word);

/// The number that stands in a number's place.
pub fn number(word: &[u8]) -> Result<u64, LineFault>
    ensures { result ≡ operands.number word.now }
{
    parse_number(word).ok_or(LineFault::Text(TextKind::Number))
}

/// The name that stands in a name's place.
pub fn name(word: &[u8]) -> Result<Name, LineFault>
    ensures { result ≡ operands.name word.now }
{
    Name::from_word(word).ok_or(LineFault::Text(TextKind::Name))
}

/// Line 1.
pub fn header(words: &[&[u8]]) -> Result<HeapPages, LineFault>
    ensures { result ≡ spec.header_line_of (texts_of words.now) }
{
    let [word, pages, resident] = words else {
        return Err(LineFault::Text(TextKind::Header));
    };
    if *word != b"trace".as_slice() {
        return Err(LineFault::Text(TextKind::Header));
    }
    heap_pages(pages, resident)
}

fn heap_pages(pages: &[u8], resident: &[u8]) -> Result<HeapPages, LineFault>
    ensures { result ≡ spec.header_line_of (codes "trace" ∷ pages.now ∷ resident.now ∷ []) }
{
    let pages = number(pages)?;
    let resident = number(resident)?;
    match heap_limit(pages, resident) {
        None => Ok(HeapPages { pages, resident }),
        Some(fault) => Err(fault),
    }
}

/// The event of a line whose first word is this, and whose others are these.
pub fn event(word: &[u8], operands: &[&[u8]]) -> Result<EventLine, LineFault>
    ensures { result ≡ spec.event_line_of word.now (texts_of operands.now) }
{
    match operands {
        [slot] => plain_event(word, slot),
        [slot, index, value] => write_event(word, slot, index, value),
        _ => Err(WORD),
    }
}

fn plain_event(word: &[u8], slot: &[u8]) -> Result<EventLine, LineFault>
    ensures { result ≡ spec.event_line_of word.now (slot.now ∷ []) }
{
    let Some(action) = plain_action(word) else {
        return Err(WORD);
    };
    let slot = name(slot)?;
    Ok(EventLine { slot, action })
}

/// What the letter says of an event without numbers.
fn plain_action(word: &[u8]) -> Option<Action>
    ensures { result ≡ spec.plain_action word.now }
{
    if word == b"a".as_slice() {
        Some(Action::New)
    } else if word == b"k".as_slice() {
        Some(Action::Link)
    } else if word == b"f".as_slice() {
        Some(Action::Free)
    } else if word == b"c".as_slice() {
        Some(Action::Clear)
    } else {
        None
    }
}

fn write_event(word: &[u8], slot: &[u8], index: &[u8], value: &[u8]) -> Result<EventLine, LineFault>
    ensures { result ≡ spec.event_line_of word.now (slot.now ∷ index.now ∷ value.now ∷ []) }
{
    if word != b"w".as_slice() {
        return Err(WORD);
    }
    let slot = name(slot)?;
    let index = number(index)?;
    let value = number(value)?;
    Ok(EventLine {
        slot,
        action: Action::Write { index, value },
    })
}
