//! An object of one number, made in a turn of its own.
ghost use Rattle.std.specs.Prelude.{◌≡◌, OnOk, IfErr, true, false};
ghost use Rattle.mk_heap.specs.Below.Objects.TurnCalls.{CalledInTurn, IsAnsweredFull};
ghost use Rattle.mk_clients.specs.Owned.{SuitsNumber, HasNumber};
ghost use Rattle.mk_never.specs.declared.operations.Op.TheVariants as op;
ghost use Rattle.mk_core.specs.declared.events.Answer.TheVariants as answer;

use mk_heap::lower::callers::Caller;
use mk_heap::lower::cycles::Engine;
use mk_heap::lower::objects::{Full, new_object};
use std::sync::Wait;
use std::thread::Threads;

/// Creates an object of one number, which is 0, unless nothing fits after a cycle.
#[tactic(auto, using(crate::proofs::NumberTurns::type_exists, crate::proofs::NumberTurns::made_owns))]
pub fn make_number<E: Engine, R: Threads + Wait + Sync>(
    rt: &R,
    caller: &mut Caller,
    engine: &mut E,
    d: u8,
    ty: u64,
) -> Result<(), Full>
    requires home { caller.old.home ≡ true }
    requires suits { SuitsNumber caller.old.pass d ty }
    requires made_for { E.made_for engine.old ≡ caller.old.pass.table.config.pages }
    ensures home { caller.new.home ≡ true }
    ensures made_for { E.made_for engine.new ≡ E.made_for engine.old }
    ensures made { OnOk result (CalledInTurn E.ways.on caller.old.pass (op.New d ty false)
        answer.Done caller.new.pass) }
    ensures owned { OnOk result (HasNumber caller.new.pass d 0) }
    ensures full { IfErr result (λ full.
        IsAnsweredFull E.ways.on caller.old.pass (op.New d ty false) full.census caller.new.pass) }
{
    new_object(rt, caller, engine, d, ty)
}
