//! What each seat is in the middle of.

use crate::Answer;
use mk_geom::Place;
use mk_never::Op;

/// The next step of a caller's call.
#[derive(Clone, Copy)]
pub enum Stage {
    /// No call is in flight.
    Idle,
    LoadQ,
    LoadP,
    LoadR,
    Probe,
    Read,
    Write,
    Cas,
    Getg,
    Setg,
    /// The store of register d that decides the call.
    Store,
    /// The store of register d in a call that is decided.
    Put,
    Dirty,
    Leave,
    /// Steps under the turn, before the one that decides the call.
    Turn,
    /// Steps under the turn in a call that is decided, up to its `give`.
    Give,
}

/// A caller's call in flight: its next step, its operation, and what it has loaded: the registers q, p and
/// r, and the word or global that it puts into d.
#[derive(Clone, Copy)]
pub struct Flight {
    pub stage: Stage,
    pub op: Op,
    pub q: u64,
    pub p: u64,
    pub r: u64,
    pub loaded: u64,
}

/// Where the value of a look comes from: a root, which is a register or a global, or a word of a marked or
/// of an unmarked cell.
#[derive(Clone, Copy)]
pub enum Source {
    Root,
    Marked,
    Unmarked,
}

/// A value that the turn's holder has looked at and may mark by.
#[derive(Clone, Copy)]
pub struct Hand {
    pub value: u64,
    pub source: Source,
}

/// The place of a `New`, and how far the call is with it.
#[derive(Clone, Copy)]
pub enum Placing {
    Unplaced,
    /// A step has served the new object, so its place is fixed.
    Chosen(Place),
    /// The cell's used bit is set.
    Used(Place),
    Granted,
}

/// The cycle that is begun in a turn.
#[derive(Clone, Copy)]
pub enum OwnCycle {
    NotBegun,
    Begun,
    Ended,
}

/// The run of a large object: its head page, and how many pages it has.
#[derive(Clone, Copy)]
pub struct RunPages {
    pub page: u64,
    pub count: u64,
}

/// What the turn's holder has done in this turn.
#[derive(Clone, Copy)]
pub struct Holding {
    pub hand: Option<Hand>,
    pub placing: Placing,
    /// The run of the large object that this call freed.
    pub freed: Option<RunPages>,
    pub cycle: OwnCycle,
}

/// Whether a marker is in, and how: one that came in at another phase than marking only visits.
#[derive(Clone, Copy)]
pub enum Presence {
    Out,
    Visiting,
    Attending,
}

/// The cell that a marker scans: its page and index, and the numbers of the heap words that are still to be loaded,
/// from `next` up to `end`, which isn't among them.
#[derive(Clone, Copy)]
pub struct Scan {
    pub page: u64,
    pub index: u64,
    pub next: u64,
    pub end: u64,
}

/// A page's header word as a marker has seen it.
#[derive(Clone, Copy)]
pub struct SeenHeader {
    pub page: u64,
    pub header: u64,
}

/// What a marker is at: its scan, its open hand, and the header that its last look showed, if that was a look at a
/// header.
#[derive(Clone, Copy)]
pub struct Marker {
    pub presence: Presence,
    pub scan: Option<Scan>,
    pub hand: Option<u64>,
    pub seen: Option<SeenHeader>,
}

/// What a step makes of a call: how it goes on, and the answer, if the step decides it.
#[derive(Clone, Copy)]
pub struct Progress {
    pub flight: Flight,
    pub answer: Option<Answer>,
}

/// What a `New` makes: an object of this many words, which is leaf if none of them is a pointer.
#[derive(Clone, Copy)]
pub struct Object {
    pub words: u64,
    pub leaf: bool,
}
