//! The cycle that a free begins if one is due.
ghost use Rattle.std.specs.Prelude.{◌≡◌, true, false};
ghost use Rattle.mk_alloc.specs.Rooms.{EndsOlder, RunsCycle, RunsIfDue, PassKeeps, MayRunCycle};

use crate::turns::is_cycle_on;
use mk_caller::lower::words::{Turn, Words};
use mk_cycle::{Engine, begin_cycle, finish_cycle};
use std::sync::Wait;
use std::thread::Threads;

/// Finishes the cycle that is on, if one is.
fn finish_older<E: Engine, R: Threads + Wait + Sync>(
    rt: &R,
    words: &Words,
    turn: Turn,
    engine: &mut E,
) -> Turn
    requires may_run { MayRunCycle words.now (E.made_for engine.old) turn.pass }
    ensures made_for { E.made_for engine.new ≡ E.made_for engine.old }
    ensures ends { EndsOlder turn.pass result.pass }
    ensures keeps { PassKeeps false E.ways turn.pass result.pass }
{
    let mut turn = turn;
    if is_cycle_on(words, &mut turn) {
        let (turn, _) = finish_cycle(rt, words, turn, engine);
        turn
    } else {
        turn
    }
}

/// Begins a cycle, after one that is on, and finishes it unless the engine keeps on.
#[inline(never)]
fn run_cycle<E: Engine, R: Threads + Wait + Sync>(
    rt: &R,
    words: &Words,
    turn: Turn,
    engine: &mut E,
) -> Turn
    requires may_run { MayRunCycle words.now (E.made_for engine.old) turn.pass }
    ensures made_for { E.made_for engine.new ≡ E.made_for engine.old }
    ensures runs { RunsCycle E.ways.on turn.pass result.pass }
    ensures keeps { PassKeeps true E.ways turn.pass result.pass }
{
    let mut turn = finish_older(rt, words, turn, engine);
    begin_cycle(rt, words, &mut turn, engine);
    if engine.keeps_on() {
        turn
    } else {
        let (turn, _) = finish_cycle(rt, words, turn, engine);
        turn
    }
}

/// Runs a cycle that is due. Few frees are.
#[inline(always)]
fn run_apart<E: Engine, R: Threads + Wait + Sync>(
    rt: &R,
    words: &Words,
    turn: Turn,
    engine: &mut E,
) -> Turn
    requires may_run { MayRunCycle words.now (E.made_for engine.old) turn.pass }
    ensures made_for { E.made_for engine.new ≡ E.made_for engine.old }
    ensures runs { RunsCycle E.ways.on turn.pass result.pass }
    ensures keeps { PassKeeps true E.ways turn.pass result.pass }
{
    run_cycle(rt, words, turn, engine)
}

/// Runs a cycle, if one is due.
pub(crate) fn run_if_due<E: Engine, R: Threads + Wait + Sync>(
    rt: &R,
    words: &Words,
    turn: Turn,
    engine: &mut E,
    due: bool,
) -> Turn
    requires may_run { MayRunCycle words.now (E.made_for engine.old) turn.pass }
    ensures made_for { E.made_for engine.new ≡ E.made_for engine.old }
    ensures runs { RunsIfDue E.ways.on due turn.pass result.pass }
    ensures keeps { PassKeeps true E.ways turn.pass result.pass }
{
    if due {
        run_apart(rt, words, turn, engine)
    } else {
        turn
    }
}
