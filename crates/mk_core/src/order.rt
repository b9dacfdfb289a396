//! Conditions 1, 2 and 3 of an event: its seat exists, its kind is open to the seat, and it comes next in
//! the seat's order.
ghost use Rattle.std.specs.Prelude.{◌≡◌};
ghost use Rattle.mk_core.specs.Conditions.{seat_exists, group_of, is_open_to, is_of_any_holder, may_decide_new};
ghost use Rattle.mk_core.specs.Conditions.{comes_next};
ghost use Rattle.mk_core.specs.Conditions.{comes_next_to_host, host_has_turn, is_in_order};

use crate::calls::is_under_turn;
use crate::events::Group;
use crate::machine::Core;
use crate::{Event, Seat, Stage, Step};
use mk_never::Op;

/// The seats that a kind of step is open to.
pub(crate) fn group(step: Step) -> Group
    ensures { result ≡ group_of step }
{
    match step {
        Step::Enter(_)
        | Step::Leave
        | Step::Reg
        | Step::Probe
        | Step::Read
        | Step::Write
        | Step::Cas
        | Step::Getg
        | Step::Setg
        | Step::Dirty => Group::Callers,
        Step::Attend
        | Step::Quit
        | Step::Mlook(_)
        | Step::Claim { .. }
        | Step::Mload
        | Step::Mmark
        | Step::Mblack => Group::Markers,
        Step::Over => Group::Host,
        _ => Group::Turn,
    }
}

pub(crate) fn is_open_to(seat: Seat, group: Group) -> bool
    ensures { result ≡ is_open_to seat group }
{
    matches!(
        (seat, group),
        (Seat::Caller(_), Group::Callers | Group::Turn)
            | (Seat::Marker(_), Group::Markers)
            | (Seat::Host, Group::Turn | Group::Host)
    )
}

/// Whether any holder of the turn may make the step, whatever it holds the turn for.
fn is_of_any_holder(step: Step) -> bool
    ensures { result ≡ is_of_any_holder step }
{
    match step {
        Step::Take(_) | Step::Grant | Step::Full => false,
        _ => group(step) == Group::Turn,
    }
}

/// Whether a call under the turn that isn't decided may make the step.
fn may_decide(op: Op, step: Step) -> bool
    ensures { result ≡ may_decide_new op step }
{
    match (op, step) {
        (Op::New { .. }, Step::Grant | Step::Full) => true,
        _ => is_of_any_holder(step),
    }
}

/// Whether the step is a caller's next one, at this stage of its call.
fn comes_next(stage: Stage, op: Op, step: Step) -> bool
    ensures { result ≡ comes_next stage op step }
{
    match (stage, step) {
        (Stage::Idle, Step::Enter(next)) => !is_under_turn(next),
        (Stage::Idle, Step::Take(Some(next))) => is_under_turn(next),
        (Stage::LoadQ | Stage::LoadP | Stage::LoadR | Stage::Store | Stage::Put, Step::Reg)
        | (Stage::Probe, Step::Probe)
        | (Stage::Read, Step::Read)
        | (Stage::Write, Step::Write)
        | (Stage::Cas, Step::Cas)
        | (Stage::Getg, Step::Getg)
        | (Stage::Setg, Step::Setg)
        | (Stage::Dirty, Step::Dirty)
        | (Stage::Leave, Step::Leave) => true,
        (Stage::Turn, step) => may_decide(op, step),
        (Stage::Give, step) => is_of_any_holder(step),
        _ => false,
    }
}

/// Whether the host may make the step next, by whether it has the turn.
fn comes_next_to_host(has_turn: bool, step: Step) -> bool
    ensures { result ≡ comes_next_to_host has_turn step }
{
    match step {
        Step::Take(None) => !has_turn,
        Step::Over => true,
        _ => has_turn && is_of_any_holder(step),
    }
}

impl Core {
    pub(crate) fn seat_exists(&self, seat: Seat) -> bool
        ensures { result ≡ seat_exists self.now.config seat }
    {
        match seat {
            Seat::Caller(caller) => caller < self.config.callers,
            Seat::Marker(marker) => marker < 8,
            Seat::Host => true,
        }
    }

    pub(crate) fn host_has_turn(&self) -> bool
        ensures { result ≡ host_has_turn self.now.config self.now.now }
    {
        self.is_within_limits();
        self.table.turn() == 1 + self.config.callers
    }

    /// Whether the event comes next in the order of its seat. Markers have no order.
    pub(crate) fn is_in_order(&self, event: Event) -> bool
        ensures { result ≡ is_in_order self.now.config self.now.now event.seat event.step }
    {
        match event.seat {
            Seat::Caller(_) => {
                let flight = self.flight(event.seat);
                comes_next(flight.stage, flight.op, event.step)
            }
            Seat::Marker(_) => true,
            Seat::Host => comes_next_to_host(self.host_has_turn(), event.step),
        }
    }
}
