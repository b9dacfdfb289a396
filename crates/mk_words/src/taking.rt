//! Waiting for the turn.
//!
//! `take_turn` returns with the turn, and only others' steps come before its `take`. How long it waits is no promise.
ghost use Rattle.std.specs.Prelude.{◌≡◌};
ghost use Rattle.mk_core.specs.Counts.{TalliesAreExact, TalliesAreTidy};
ghost use Rattle.mk_words.specs.{Steps.IsEnabledTo, TurnSteps.IsFresh};
ghost use Rattle.mk_words.specs.{TurnSteps.TakesTurn, Sweeping.TakingSweepsNothing};
ghost use Rattle.mk_core.specs.declared.events.Step.TheVariants as step;

use crate::passes::Pass;
use crate::patience::Patience;
use crate::turns::Turn;
use crate::words::Words;
use mk_never::Op;
use std::sync::Wait;

/// Waits for the turn, and takes it.
#[inline(always)]
fn wait_for_turn<R: Wait>(rt: &R, words: &Words, home: Pass, op: Option<Op>) -> Turn
    requires one_table { home.table ≡ words.now }
    requires enabled { IsEnabledTo home (step.Take op) }
    ensures takes { TakesTurn home op result.pass }
    ensures fresh { IsFresh result.pass op }
    ensures exact { TalliesAreExact result.pass.table.config result.pass.seen }
    ensures tidy { TalliesAreTidy result.pass.table.config result.pass.seen }
{
    let mut pass = home;
    let mut patience = Patience::new();
    'waiting: for _ in rt.forever() {
        patience.pause_for_turn(rt, words);
        match pass.try_take(words, op) {
            Ok(turn) => return turn,
            Err((back, _)) => pass = back,
        }
    }
    unreachable!()
}

/// Waits for the turn, and takes it. What it hands over and gets back has its room here: a call that needn't wait pays
/// nothing for it.
#[inline(always)]
fn wait_apart<R: Wait>(rt: &R, words: &Words, home: Pass, op: Option<Op>) -> Turn
    requires one_table { home.table ≡ words.now }
    requires enabled { IsEnabledTo home (step.Take op) }
    ensures takes { TakesTurn home op result.pass }
    ensures fresh { IsFresh result.pass op }
    ensures exact { TalliesAreExact result.pass.table.config result.pass.seen }
    ensures tidy { TalliesAreTidy result.pass.table.config result.pass.seen }
{
    wait_for_turn(rt, words, home, op)
}

/// Takes the turn, and waits for it where another has it.
#[inline(always)]
pub fn take_turn<R: Wait>(rt: &R, words: &Words, home: Pass, op: Option<Op>) -> Turn
    requires one_table { home.table ≡ words.now }
    requires enabled { IsEnabledTo home (step.Take op) }
    ensures takes { TakesTurn home op result.pass }
    ensures fresh { IsFresh result.pass op }
    ensures exact { TalliesAreExact result.pass.table.config result.pass.seen }
    ensures tidy { TalliesAreTidy result.pass.table.config result.pass.seen }
{
    match home.try_take(words, op) {
        Ok(turn) => turn,
        Err((back, _)) => wait_apart(rt, words, back, op),
    }
}

/// No step of who waits for the turn and takes it is a sweeping mark: facts alone, with no code.
pub fn taking_sweeps_nothing()
    ensures { TakingSweepsNothing }
{}
