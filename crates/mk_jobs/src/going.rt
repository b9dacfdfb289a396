//! A caller goes from point to point of a job, and forgets what it held when the job has ended.
ghost use Rattle.std.specs.Prelude.{◌≡◌, ◌<◌, ◌≤◌, Bool, false, true};
ghost use Rattle.mk_core.specs.Calls.{is_under_turn};
ghost use Rattle.mk_heap.specs.Below.{Callers.States.{caller_of_pass, value_of}, Objects.TurnCalls.OwnAreExact};
ghost use Rattle.mk_heap.specs.Dispatching.{Answers, StaysAdmitted};
ghost use Rattle.mk_jobs.specs.{Passes.Clears, Jobs.HoldsAt};
ghost use Rattle.mk_jobs.specs.Passes.{Founds, GoesToEnd, HasDone, IsReady};

use crate::advancing::{next_by, op_of};
use crate::objects::Object;
use crate::steps::Step;
use mk_core::Answer;
use mk_heap::lower::callers::Caller;
use mk_heap::lower::cycles::Engine;
use mk_heap::{answer_at_once, answer_put_off, answer_when_open};
use mk_never::Op;
use std::sync::Wait;
use std::thread::Threads;

/// Carries out the operations from a point to the end of the job, and tells with what it ended.
fn go<O: Object, E: Engine, R: Threads + Wait + Sync>(
    rt: &R,
    caller: &mut Caller,
    engine: &mut E,
    from: O::Point,
) -> O::Done
    requires ready { IsReady O.plan E.made_for caller.old engine.old }
    requires holds { HoldsAt O.plan (value_of caller.old.pass) from }
    ensures ready { IsReady O.plan E.made_for caller.new engine.new }
    ensures goes { GoesToEnd O.plan caller.old.pass from caller.new.pass result }
    ensures exact { OwnAreExact E.ways.on caller.old.pass → OwnAreExact E.ways.on caller.new.pass }
{
    let mut point = from;
    'points: for _ in rt.forever() {
        let asked = O::step(point);
        let Some(op) = op_of(asked) else {
            let Step::End(done) = asked else {
                unreachable!()
            };
            return done;
        };
        // Matched here and not by `answer_to`, so that each kind of answer leads on by a way of its own.
        let told = match answer_at_once(caller, op) {
            Some(told) => told,
            None => answer_put_off(rt, caller, engine, op),
        };
        point = next_by::<O>(point, asked, told);
    }
    unreachable!()
}

/// Carries out an operation that takes no turn, at once or once its gate is open, and returns its answer.
#[inline(always)]
fn answer_beside<R: Wait>(rt: &R, caller: &mut Caller, op: Op) -> Answer
    requires home { caller.old.home ≡ true }
    requires exists { caller_of_pass caller.old.pass < caller.old.pass.table.config.callers }
    requires entered { is_under_turn op ≡ false }
    requires admitted { StaysAdmitted caller.old.pass op }
    ensures home { caller.new.home ≡ true }
    ensures answers { (on : Bool) → Answers on caller.old.pass op result caller.new.pass }
{
    match answer_at_once(caller, op) {
        Some(told) => told,
        None => answer_when_open(rt, caller, op),
    }
}

/// Sets the registers that the object uses to null. As long as a register points to a freed object, the heap keeps that
/// object, and all that it is linked to.
fn forget<O: Object, E: Engine, R: Threads + Wait + Sync>(rt: &R, caller: &mut Caller, engine: &E)
    requires ready { IsReady O.plan E.made_for caller.old engine.now }
    ensures ready { IsReady O.plan E.made_for caller.new engine.now }
    ensures clears { Clears caller.old.pass O.plan.registers caller.new.pass }
    ensures exact { OwnAreExact E.ways.on caller.old.pass → OwnAreExact E.ways.on caller.new.pass }
{
    for register in 0..O::registers() {
        answer_beside(rt, caller, Op::Clear { d: register });
    }
}

/// Makes the object. It is for the first caller alone, before its jobs.
pub(crate) fn found<O: Object, E: Engine, R: Threads + Wait + Sync>(
    rt: &R,
    caller: &mut Caller,
    engine: &mut E,
)
    requires ready { IsReady O.plan E.made_for caller.old engine.old }
    ensures ready { IsReady O.plan E.made_for caller.new engine.new }
    ensures founds { Founds O.plan caller.old.pass caller.new.pass }
    ensures exact { OwnAreExact E.ways.on caller.old.pass → OwnAreExact E.ways.on caller.new.pass }
{
    let _done = go::<O, E, R>(rt, caller, engine, O::founding());
    forget::<O, E, R>(rt, caller, engine);
}

/// Does a job, and reports what became of it. The caller then keeps no object.
pub fn do_job<O: Object, E: Engine, R: Threads + Wait + Sync>(
    rt: &R,
    caller: &mut Caller,
    engine: &mut E,
    job: O::Job,
) -> O::Done
    requires ready { IsReady O.plan E.made_for caller.old engine.old }
    ensures { HasDone O.plan E.made_for E.ways.on caller.old job result caller.new engine.new }
{
    let done = go::<O, E, R>(rt, caller, engine, O::starting(job));
    forget::<O, E, R>(rt, caller, engine);
    done
}
