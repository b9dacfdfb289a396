//! A number that a caller owns: storing and loading it, whatever other threads do.
ghost use Rattle.std.specs.Prelude.{◌≡◌, ◌<◌, ◌++◌, IfOk, OnOk, OnErr, IfErr, true};
ghost use Rattle.mk_heap.specs.Below.Callers.{States.caller_of_pass, Called.{Called, own_calls}};
ghost use Rattle.mk_heap.specs.Below.Callers.Called.{FindsGateHeld};
ghost use Rattle.mk_clients.specs.Owned.{EndsEarly, SuitsNumber, new_store_load, store_then_load};
ghost use Rattle.mk_clients.specs.Owned.{HasNumber, OwnsNumber, number_owned};
ghost use Rattle.mk_never.specs.declared.operations.Op.TheVariants as op;
ghost use Rattle.mk_core.specs.declared.events.Answer.TheVariants as answer;

use crate::making::make_number;
use crate::outcomes::Unfinished;
use mk_heap::lower::callers::{Caller, Refusal};
use mk_heap::lower::cycles::Engine;
use mk_heap::lower::words::Held;
use std::sync::Wait;
use std::thread::Threads;

/// Stores a number that the caller owns. It is never refused but by a held gate, and is owned still then.
pub fn store(caller: &mut Caller, d: u8, n: u64) -> Result<(), Held>
    requires home { caller.old.home ≡ true }
    requires owned { OwnsNumber caller.old.pass d }
    ensures home { caller.new.home ≡ true }
    ensures pass { caller.new.pass ≡ record caller.old.pass { seen = caller.new.pass.seen } }
    ensures called { OnOk result (Called caller.old.pass (op.SetNum d 0 n) answer.Done caller.new.pass) }
    ensures stored { OnOk result (HasNumber caller.new.pass d n) }
    ensures held { OnErr result (FindsGateHeld caller.old.pass (op.SetNum d 0 n) caller.new.pass) }
    ensures still { OnErr result (HasNumber caller.new.pass d (number_owned caller.old.pass d)) }
{
    match caller.set_num(d, 0, n) {
        Ok(()) => Ok(()),
        Err(refusal) => match refusal {
            Refusal::Held => Err(Held),
            Refusal::Fault => unreachable!(),
            Refusal::Null => unreachable!(),
        },
    }
}

/// Loads a number that the caller owns: the one that it is, whatever others did.
pub fn load(caller: &mut Caller, d: u8) -> Result<u64, Held>
    requires home { caller.old.home ≡ true }
    requires owned { OwnsNumber caller.old.pass d }
    ensures home { caller.new.home ≡ true }
    ensures pass { caller.new.pass ≡ record caller.old.pass { seen = caller.new.pass.seen } }
    ensures loaded { IfOk result (λ n. n ≡ number_owned caller.old.pass d) }
    ensures called { IfOk result (λ n. Called caller.old.pass (op.GetNum d 0) (answer.Num n) caller.new.pass) }
    ensures held { OnErr result (FindsGateHeld caller.old.pass (op.GetNum d 0) caller.new.pass) }
    ensures still { HasNumber caller.new.pass d (number_owned caller.old.pass d) }
{
    match caller.get_num(d, 0) {
        Ok(n) => Ok(n),
        Err(refusal) => match refusal {
            Refusal::Held => Err(Held),
            Refusal::Fault => unreachable!(),
            Refusal::Null => unreachable!(),
        },
    }
}

/// Stores a number in a place that the caller owns, and loads it: it is the one that was stored, whatever others did.
pub fn store_and_load(caller: &mut Caller, d: u8, n: u64) -> Result<u64, Held>
    requires home { caller.old.home ≡ true }
    requires owned { OwnsNumber caller.old.pass d }
    ensures home { caller.new.home ≡ true }
    ensures pass { caller.new.pass ≡ record caller.old.pass { seen = caller.new.pass.seen } }
    ensures loaded { IfOk result (λ loaded. loaded ≡ n) }
    ensures did { OnOk result (own_calls caller.new.pass caller.new.pass.seen
        ≡ own_calls caller.old.pass caller.old.pass.seen ++ store_then_load (caller_of_pass caller.old.pass) d n) }
    ensures still { OwnsNumber caller.new.pass d }
{
    store(caller, d, n)?;
    load(caller, d)
}

/// Makes an object of one number, stores a number in it and loads that: it is the one that was stored, whatever others
/// did.
pub fn number_in_new_object<E: Engine, R: Threads + Wait + Sync>(
    rt: &R,
    caller: &mut Caller,
    engine: &mut E,
    d: u8,
    ty: u64,
    n: u64,
) -> Result<u64, Unfinished>
    requires home { caller.old.home ≡ true }
    requires suits { SuitsNumber caller.old.pass d ty }
    requires made_for { E.made_for engine.old ≡ caller.old.pass.table.config.pages }
    ensures home { caller.new.home ≡ true }
    ensures pass { caller.new.pass ≡ record caller.old.pass { seen = caller.new.pass.seen } }
    ensures made_for { E.made_for engine.new ≡ E.made_for engine.old }
    ensures loaded { IfOk result (λ loaded. loaded ≡ n) }
    ensures did { OnOk result (own_calls caller.new.pass caller.new.pass.seen
        ≡ own_calls caller.old.pass caller.old.pass.seen ++ new_store_load (caller_of_pass caller.old.pass) d ty n) }
    ensures early { IfErr result (λ e. EndsEarly E.ways.on caller.old.pass d ty e caller.new.pass) }
{
    match make_number(rt, caller, engine, d, ty) {
        Err(full) => Err(Unfinished::NoRoom(full)),
        Ok(()) => match store_and_load(caller, d, n) {
            Err(Held) => Err(Unfinished::Held),
            Ok(loaded) => Ok(loaded),
        },
    }
}
