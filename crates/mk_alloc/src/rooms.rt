//! Room for the object of a New: if it fits nowhere, cycles are finished and begun.
ghost use Rattle.std.specs.Prelude.{◌≡◌, false};
ghost use Rattle.mk_caller.specs.Below.Words.{States.now_of, Sweeping.SweepsNothing};
ghost use Rattle.mk_alloc.specs.{Placing.OnlyLooks, Rooms.{EndsOnly, SeesNone, NeedsRoom, RunsOne, SeeksRoom}};
ghost use Rattle.mk_alloc.specs.Rooms.{PassKeeps, PlacesOrMisfits};
ghost use Rattle.mk_cycle.specs.{BeginCycle.HoldsFirst, Stops.IsClosedBy, EngineLaw.IsAtPhase};
ghost use Rattle.mk_core.specs.{Cycles.{is_begin, is_close}, Effects.cycle_ended};
ghost use Rattle.mk_core.specs.declared.seats.OwnCycle.TheVariants.{Ended};

use crate::objects::Request;
use crate::placing::place_object;
use crate::turns::is_cycle_on;
use mk_caller::lower::words::{Turn, Words};
use mk_cycle::{Engine, begin_cycle, finish_cycle};
use std::sync::Wait;
use std::thread::Threads;

/// Grants the object if it fits.
#[inline(always)]
pub(crate) fn try_place(words: &Words, turn: &mut Turn, request: Request) -> bool
    requires { SeeksRoom words.now turn.old.pass request }
    ensures tried { PlacesOrMisfits result turn.old.pass turn.new.pass }
    ensures looks { result ≡ false → OnlyLooks turn.old.pass turn.new.pass }
    ensures begins { SeesNone is_begin turn.old.pass turn.new.pass }
    ensures closes { SeesNone is_close turn.old.pass turn.new.pass }
    ensures reached { SweepsNothing turn.old.pass turn.new.pass }
{
    place_object(words, turn, request)
}

/// Finishes the cycle that is on, and grants the object if it fits then.
#[cold]
#[inline(never)]
fn finish_and_place<E: Engine, R: Threads + Wait + Sync>(
    rt: &R,
    words: &Words,
    turn: Turn,
    request: Request,
    engine: &mut E,
) -> (Turn, bool)
    requires needs { NeedsRoom words.now (E.made_for engine.old) turn.pass request }
    requires on { IsAtPhase turn.pass 1 }
    ensures made_for { E.made_for engine.new ≡ E.made_for engine.old }
    ensures tried { PlacesOrMisfits result.1 turn.pass result.0.pass }
    ensures idle { result.1 ≡ false → IsAtPhase result.0.pass 0 }
    ensures cycle { result.1 ≡ false → (now_of result.0.pass).seats.holding.cycle
        ≡ cycle_ended (now_of turn.pass).seats.holding.cycle }
    ensures ends { EndsOnly turn.pass result.0.pass }
    ensures holds { HoldsFirst turn.pass result.0.pass }
    ensures closed { IsClosedBy (E.ways.closes engine.new) turn.pass result.0.pass }
    ensures keeps { PassKeeps false E.ways turn.pass result.0.pass }
{
    let (mut turn, _) = finish_cycle(rt, words, turn, engine);
    let placed = try_place(words, &mut turn, request);
    (turn, placed)
}

/// Grants the object, which fits nowhere, if it fits after the cycle that is on.
fn place_behind_older<E: Engine, R: Threads + Wait + Sync>(
    rt: &R,
    words: &Words,
    turn: Turn,
    request: Request,
    engine: &mut E,
) -> (Turn, bool)
    requires needs { NeedsRoom words.now (E.made_for engine.old) turn.pass request }
    ensures made_for { E.made_for engine.new ≡ E.made_for engine.old }
    ensures tried { PlacesOrMisfits result.1 turn.pass result.0.pass }
    ensures idle { result.1 ≡ false → IsAtPhase result.0.pass 0 }
    ensures begins { SeesNone is_begin turn.pass result.0.pass }
    ensures keeps { PassKeeps false E.ways turn.pass result.0.pass }
{
    let mut turn = turn;
    let is_on = is_cycle_on(words, &mut turn);
    if !is_on {
        return (turn, false);
    }
    finish_and_place(rt, words, turn, request, engine)
}

/// Begins and finishes a cycle, and grants the object if it fits then.
#[cold]
#[inline(never)]
fn place_behind_cycle<E: Engine, R: Threads + Wait + Sync>(
    rt: &R,
    words: &Words,
    turn: Turn,
    request: Request,
    engine: &mut E,
) -> (Turn, bool)
    requires needs { NeedsRoom words.now (E.made_for engine.old) turn.pass request }
    requires idle { IsAtPhase turn.pass 0 }
    ensures made_for { E.made_for engine.new ≡ E.made_for engine.old }
    ensures tried { PlacesOrMisfits result.1 turn.pass result.0.pass }
    ensures idle { result.1 ≡ false → IsAtPhase result.0.pass 0 }
    ensures ended { result.1 ≡ false → (now_of result.0.pass).seats.holding.cycle ≡ Ended }
    ensures one { RunsOne turn.pass result.0.pass }
    ensures keeps { PassKeeps false E.ways turn.pass result.0.pass }
{
    let mut turn = turn;
    begin_cycle(rt, words, &mut turn, engine);
    finish_and_place(rt, words, turn, request, engine)
}

/// Makes room for the object, which fits nowhere, and grants it if it can be made to fit.
#[cold]
#[inline(never)]
pub(crate) fn make_room<E: Engine, R: Threads + Wait + Sync>(
    rt: &R,
    words: &Words,
    turn: Turn,
    request: Request,
    engine: &mut E,
) -> (Turn, bool)
    requires needs { NeedsRoom words.now (E.made_for engine.old) turn.pass request }
    ensures made_for { E.made_for engine.new ≡ E.made_for engine.old }
    ensures tried { PlacesOrMisfits result.1 turn.pass result.0.pass }
    ensures idle { result.1 ≡ false → IsAtPhase result.0.pass 0 }
    ensures ended { result.1 ≡ false → (now_of result.0.pass).seats.holding.cycle ≡ Ended }
    ensures one { RunsOne turn.pass result.0.pass }
    ensures keeps { PassKeeps false E.ways turn.pass result.0.pass }
{
    let (turn, placed) = place_behind_older(rt, words, turn, request, engine);
    if placed {
        return (turn, placed);
    }
    place_behind_cycle(rt, words, turn, request, engine)
}
