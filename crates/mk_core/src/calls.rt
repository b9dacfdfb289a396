//! The calls of callers: the operands and the steps of each operation, and what a step makes of the call
//! in flight.
ghost use Rattle.std.specs.Prelude.{◌≡◌};
ghost use Rattle.mk_core.specs.Calls.{q_of, p_of, r_of, d_of, g_of, i_of, has_type, has_operands, is_under_turn};
ghost use Rattle.mk_core.specs.Calls.{steps_of, first_of, stage_behind, stage_refused, begun, word_met, page_met};
ghost use Rattle.mk_core.specs.Calls.{value_for, value_written, onward, still, refused, progress_q, progress_p};
ghost use Rattle.mk_core.specs.Calls.{progress_reg, progress_read, progress_cas, progress_getg};

use crate::seats::Progress;
use crate::{Answer, Core, Flight, Stage};
use mk_geom::{HEAP_START, PAGE_WORDS, WORD_BYTES};
use mk_never::Op;

pub(crate) fn register_q(op: Op) -> u8
    ensures { result ≡ q_of op }
{
    match op {
        Op::GetNum { q, .. }
        | Op::SetNum { q, .. }
        | Op::GetPtr { q, .. }
        | Op::SetPtr { q, .. }
        | Op::CasPtr { q, .. }
        | Op::Lea { q, .. }
        | Op::Move { q, .. }
        | Op::Same { q, .. } => q,
        _ => 0,
    }
}

pub(crate) fn register_p(op: Op) -> u8
    ensures { result ≡ p_of op }
{
    match op {
        Op::Free { p }
        | Op::SetPtr { p, .. }
        | Op::CasPtr { p, .. }
        | Op::SetGlobal { p, .. }
        | Op::Same { p, .. }
        | Op::IsNull { p } => p,
        _ => 0,
    }
}

pub(crate) fn register_r(op: Op) -> u8
    ensures { result ≡ r_of op }
{
    match op {
        Op::CasPtr { r, .. } => r,
        _ => 0,
    }
}

pub(crate) fn register_d(op: Op) -> u8
    ensures { result ≡ d_of op }
{
    match op {
        Op::New { d, .. }
        | Op::GetPtr { d, .. }
        | Op::Lea { d, .. }
        | Op::Move { d, .. }
        | Op::Clear { d }
        | Op::GetGlobal { d, .. } => d,
        _ => 0,
    }
}

pub(crate) fn global_of(op: Op) -> u8
    ensures { result ≡ g_of op }
{
    match op {
        Op::GetGlobal { g, .. } | Op::SetGlobal { g, .. } => g,
        _ => 0,
    }
}

/// How many words after the one that the register points to the operation's word is.
pub(crate) fn offset_of(op: Op) -> u64
    ensures { result ≡ i_of op }
{
    match op {
        Op::GetNum { i, .. }
        | Op::SetNum { i, .. }
        | Op::GetPtr { i, .. }
        | Op::SetPtr { i, .. }
        | Op::CasPtr { i, .. }
        | Op::Lea { i, .. } => i,
        _ => 0,
    }
}

/// Whether a call of the operation begins with `take`. Others begin with `enter`.
pub fn is_under_turn(op: Op) -> bool
    ensures { result ≡ is_under_turn op }
{
    matches!(op, Op::New { .. } | Op::Free { .. })
}

/// The steps of a call after the one that begins it, in order.
fn steps_of(op: Op) -> &'static [Stage]
    ensures { result.now ≡ steps_of op }
{
    use crate::Stage::{
        Cas, Dirty, Getg, Give, Leave, LoadP, LoadQ, LoadR, Probe, Put, Read, Setg, Store, Turn,
        Write,
    };
    match op {
        Op::GetNum { .. } => &[LoadQ, Probe, Read, Leave],
        Op::GetPtr { .. } => &[LoadQ, Probe, Read, Put, Leave],
        Op::SetNum { .. } => &[LoadQ, Probe, Write, Dirty, Leave],
        Op::SetPtr { .. } => &[LoadQ, LoadP, Probe, Write, Dirty, Leave],
        Op::CasPtr { .. } => &[LoadQ, LoadP, LoadR, Probe, Cas, Dirty, Leave],
        Op::Lea { .. } | Op::Move { .. } => &[LoadQ, Store, Leave],
        Op::Clear { .. } => &[Store, Leave],
        Op::GetGlobal { .. } => &[Getg, Put, Leave],
        Op::SetGlobal { .. } => &[LoadP, Setg, Leave],
        Op::Same { .. } => &[LoadP, LoadQ, Leave],
        Op::IsNull { .. } => &[LoadP, Leave],
        Op::New { .. } => &[Turn, Give],
        Op::Free { .. } => &[LoadP, Turn, Give],
    }
}

/// The first of the steps; `Idle` if there is none.
fn first_of(steps: &[Stage]) -> Stage
    ensures { result ≡ first_of steps.now }
{
    steps.first().copied().unwrap_or(Stage::Idle)
}

/// The stage after this one among the steps; `Idle` after the last.
fn behind(stage: Stage, steps: &[Stage]) -> Stage
    ensures { result ≡ stage_behind stage steps.now }
{
    match steps.split_first() {
        Some((step, rest)) if *step == stage => first_of(rest),
        Some((_, rest)) => behind(stage, rest),
        None => Stage::Idle,
    }
}

/// The next step of a call that has just begun.
pub(crate) fn first_stage(op: Op) -> Stage
    ensures { result ≡ first_of (steps_of op) }
{
    first_of(steps_of(op))
}

pub(crate) fn stage_behind(stage: Stage, op: Op) -> Stage
    ensures { result ≡ stage_behind stage (steps_of op) }
{
    behind(stage, steps_of(op))
}

/// The stage after a refusal: a register that would have been loaded becomes null first.
pub(crate) fn stage_refused(op: Op) -> Stage
    ensures { result ≡ stage_refused op }
{
    match op {
        Op::GetPtr { .. } | Op::Lea { .. } => Stage::Put,
        _ => Stage::Leave,
    }
}

pub(crate) fn begun(op: Op) -> Flight
    ensures { result ≡ begun op }
{
    Flight {
        stage: first_stage(op),
        op,
        q: 0,
        p: 0,
        r: 0,
        loaded: 0,
    }
}

/// The number of the heap word that an access meets. The heap may have no such word.
pub(crate) fn word_met(flight: Flight) -> u128
    ensures { result ≡ word_met flight }
{
    flight.q.saturating_sub(HEAP_START) as u128 / WORD_BYTES as u128 + offset_of(flight.op) as u128
}

pub(crate) fn page_met(flight: Flight) -> u64
    ensures { result ≡ page_met flight }
{
    (word_met(flight) / PAGE_WORDS as u128) as u64
}

/// What the deciding store puts into d.
pub(crate) fn value_for(flight: Flight) -> u64
    ensures { result ≡ value_for flight flight.op }
{
    match flight.op {
        Op::Lea { i, .. } => flight.q.wrapping_add(i.wrapping_mul(8)),
        Op::Move { .. } => flight.q,
        _ => 0,
    }
}

/// What a write stores.
pub(crate) fn value_written(flight: Flight) -> u64
    ensures { result ≡ value_written flight flight.op }
{
    match flight.op {
        Op::SetNum { n, .. } => n,
        _ => flight.p,
    }
}

/// The next step of the call, undecided or decided by this answer.
pub(crate) fn onward(flight: Flight, answer: Option<Answer>) -> Progress
    ensures { result ≡ onward flight answer }
{
    let stage = stage_behind(flight.stage, flight.op);
    Progress {
        flight: Flight { stage, ..flight },
        answer,
    }
}

/// A call after a step that decides nothing and leaves it at its stage.
pub(crate) fn still(flight: Flight) -> Progress
    ensures { result ≡ still flight }
{
    Progress {
        flight,
        answer: None,
    }
}

pub(crate) fn refused(flight: Flight, answer: Answer) -> Progress
    ensures { result ≡ refused flight answer }
{
    Progress {
        flight: Flight {
            stage: stage_refused(flight.op),
            loaded: 0,
            ..flight
        },
        answer: Some(answer),
    }
}

/// `reg` that loads q and finds this value.
fn progress_q(flight: Flight, found: u64) -> Progress
    ensures { result ≡ progress_q flight flight.op found }
{
    let loaded = Flight { q: found, ..flight };
    match flight.op {
        Op::Move { .. } => onward(loaded, None),
        Op::Same { .. } => onward(loaded, Some(Answer::Num(u64::from(flight.p == found)))),
        _ if found == 0 => refused(loaded, Answer::Null),
        _ => onward(loaded, None),
    }
}

/// `reg` that loads p and finds this value.
fn progress_p(flight: Flight, found: u64) -> Progress
    ensures { result ≡ progress_p flight flight.op found }
{
    let loaded = Flight { p: found, ..flight };
    match flight.op {
        Op::IsNull { .. } => onward(loaded, Some(Answer::Num(u64::from(found == 0)))),
        Op::Free { .. } if found == 0 => Progress {
            flight: Flight {
                stage: Stage::Give,
                ..loaded
            },
            answer: Some(Answer::Done),
        },
        _ => onward(loaded, None),
    }
}

/// `reg`: a load of q, p or r, or a store of d.
pub(crate) fn progress_reg(flight: Flight, found: u64) -> Progress
    ensures { result ≡ progress_reg flight flight.stage found }
{
    match flight.stage {
        Stage::LoadQ => progress_q(flight, found),
        Stage::LoadP => progress_p(flight, found),
        Stage::LoadR => onward(Flight { r: found, ..flight }, None),
        Stage::Store => onward(flight, Some(Answer::Done)),
        Stage::Put => Progress {
            flight: Flight {
                stage: Stage::Leave,
                ..flight
            },
            answer: None,
        },
        _ => still(flight),
    }
}

/// `read`: the value is the answer, and a pointer is put into d as well.
pub(crate) fn progress_read(flight: Flight, found: u64) -> Progress
    ensures { result ≡ progress_read flight flight.op found }
{
    match flight.op {
        Op::GetPtr { .. } => progress_getg(flight, found),
        _ => onward(flight, Some(Answer::Num(found))),
    }
}

pub(crate) fn progress_cas(flight: Flight, found: u64) -> Progress
    ensures { result ≡ progress_cas flight found }
{
    onward(flight, Some(Answer::Num(u64::from(found == flight.p))))
}

/// `getg`: the pointer is the answer, and is put into d.
pub(crate) fn progress_getg(flight: Flight, found: u64) -> Progress
    ensures { result ≡ progress_getg flight found }
{
    let loaded = Flight {
        loaded: found,
        ..flight
    };
    onward(loaded, Some(Answer::Word(found)))
}

impl Core {
    /// Whether the configuration has the type of a `New`.
    fn has_type(&self, op: Op) -> bool
        ensures { result ≡ has_type self.now.config op }
    {
        match op {
            Op::New { ty, .. } => ty < self.config.types.count(),
            _ => true,
        }
    }

    /// Whether the configuration has the registers, the global and the type of an operation.
    pub(crate) fn has_operands(&self, op: Op) -> bool
        ensures { result ≡ has_operands self.now.config op }
    {
        register_q(op) < 8
            && register_p(op) < 8
            && register_r(op) < 8
            && register_d(op) < 8
            && global_of(op) < 64
            && self.has_type(op)
    }
}
