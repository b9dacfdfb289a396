//! Freeing objects.
ghost use Rattle.std.specs.Prelude.{◌≡◌, ◌<◌, ◌∷◌, [], IfOk, OnErr, true, false};
ghost use Rattle.mk_never.specs.Admitted.{IsBase};
ghost use Rattle.mk_caller.specs.States.{caller_of_pass, value_of};
ghost use Rattle.mk_alloc.specs.{TurnCalls.{FreesObject, IsAnsweredDouble, MayTakeTurns}, Rooms.PassKeeps};

use crate::cycles::run_if_due;
use crate::retirement::{Double, Freed, retire_object};
use crate::turns::{give, take};
use mk_caller::Caller;
use mk_cycle::Engine;
use mk_never::Op;
use std::sync::Wait;
use std::thread::Threads;

/// Frees the object that a register points to, if it isn't null. If a cycle is due, it begins, and ends in the call
/// unless the engine keeps on. Directly after a `begin` the engine does its part. An object that is freed already is
/// refused as `Double`.
pub fn free_object<E: Engine, R: Threads + Wait + Sync>(
    rt: &R,
    caller: &mut Caller,
    engine: &mut E,
    p: u8,
) -> Result<Freed, Double>
    requires may { MayTakeTurns (E.made_for engine.old) caller.old }
    requires register { p < 8 }
    requires base { IsBase (value_of caller.old.pass p) }
    ensures home { caller.new.home ≡ true }
    ensures made_for { E.made_for engine.new ≡ E.made_for engine.old }
    ensures freed { IfOk result (λ freed. FreesObject E.ways.on caller.old.pass p freed.due caller.new.pass) }
    ensures double { OnErr result (IsAnsweredDouble E.ways.on caller.old.pass p caller.new.pass) }
    ensures keeps { PassKeeps false E.ways caller.old.pass caller.new.pass }
{
    let words = caller.words();
    let home = caller.lend();
    let mut turn = take(rt, words, home, Op::Free { p });
    match retire_object(rt, words, &mut turn, p) {
        Ok(freed) => {
            let turn = run_if_due(rt, words, turn, engine, freed.due);
            caller.back(give(words, turn));
            Ok(freed)
        }
        Err(double) => {
            caller.back(give(words, turn));
            Err(double)
        }
    }
}
