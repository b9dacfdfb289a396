//! The events of a history: one access to one word of the shared table, by one seat.

use mk_never::Op;

/// Who takes a step: a caller or a marker, numbered from 0, or the host.
#[derive(Clone, Copy, Debug, PartialEq, Eq)]
pub enum Seat {
    Caller(u64),
    Marker(u64),
    Host,
}

/// The name of a word of the shared table that can be looked at. Pages, callers, registers, globals and
/// heap words are numbered from 0.
#[derive(Clone, Copy)]
pub enum Word {
    Phase,
    Gate(u64),
    Reg { caller: u64, register: u64 },
    Global(u64),
    Head(u64),
    Used(u64),
    Quar(u64),
    Mark(u64),
    Black(u64),
    Dirty(u64),
    Heap(u64),
    Held,
    Fresh,
    Cycles,
    Released,
    Full,
}

/// A count that the turn's holder keeps in the table.
#[derive(Clone, Copy, Debug, PartialEq, Eq)]
pub enum Tally {
    Held,
    Fresh,
    Cycles,
    Released,
    Full,
}

/// A kind of step, with the numbers that are fixed before its access. What the access finds isn't among
/// them.
#[derive(Clone, Copy)]
pub enum Step {
    Enter(Op),
    Leave,
    Reg,
    Probe,
    Read,
    Write,
    Cas,
    Getg,
    Setg,
    /// A caller's `take` has its operation, and the host's has none.
    Take(Option<Op>),
    Give,
    Look(Word),
    Head { page: u64, value: u64 },
    Used { page: u64, value: u64 },
    Quar { page: u64, value: u64 },
    Grant,
    Tally { tally: Tally, value: u64 },
    Hold(u64),
    Open(u64),
    Clear(u64),
    Mark { page: u64, value: u64 },
    Wipe(u64),
    Full,
    Begin,
    Close,
    Release,
    End,
    Want,
    Dirty,
    Undirty(u64),
    Black { page: u64, value: u64 },
    Unblack(u64),
    Attend,
    Quit,
    Mlook(Word),
    Claim { page: u64, cell: u64 },
    Mload,
    Mmark,
    Mblack,
    Over,
}

/// One step of one seat.
#[derive(Clone, Copy)]
pub struct Event {
    pub seat: Seat,
    pub step: Step,
}

/// What a caller is told: the image of a reply. A pointer is its address, and null is 0.
#[derive(Clone, Copy, Debug, PartialEq, Eq)]
pub enum Answer {
    Done,
    Num(u64),
    /// A value of a register, a global or a word.
    Word(u64),
    Full,
    Fault,
    Null,
    Double,
}

/// The refusal of an event that may not come next: the first condition that fails, 1 to 7.
#[derive(Clone, Copy, Debug, PartialEq, Eq)]
pub struct NotEnabled {
    pub condition: u64,
}

/// The seats that a kind of step is open to: callers in a call, the holder of the turn, markers, or only the host.
#[derive(Clone, Copy)]
pub enum Group {
    Callers,
    Turn,
    Markers,
    Host,
}
