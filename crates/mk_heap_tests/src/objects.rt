//! Objects of two words that callers make and free by direct calls, on one page of 32 cells.
ghost use Rattle.std.specs.Prelude.{◌≡◌, ◌<◌};
ghost use Rattle.mk_run.specs.Below.Heaps.Hosts.{first_host, with_caller_made};
ghost use Rattle.mk_heap_tests.specs.HeldObjects.{BothGoOn, BothMayAllocate, GoesOn, MayAllocate};
ghost use Rattle.mk_heap_tests.specs.HeldObjects.{AreOfTwo};

use crate::beginnings::{TwoCallers, close};
use mk_run::lower::callers::Caller;
use mk_run::lower::cycles::Engine;
use mk_run::lower::heaps::Report;
use mk_run::lower::objects::{Double, Freed, free_object, new_object};
use std::sync::Wait;
use std::thread::Threads;

/// Sets a register to an object of the first type, and says whether it fits.
#[tactic(auto, using(crate::proofs::HeldObjects::number_is, crate::proofs::HeldObjects::is_alone))]
pub(crate) fn make<E: Engine, R: Threads + Wait + Sync>(
    rt: &R,
    caller: &mut Caller,
    engine: &mut E,
    d: u8,
) -> bool
    requires may { MayAllocate (E.made_for engine.old) caller.old }
    requires register { d < 8 }
    ensures { GoesOn (E.made_for engine.new) caller.old caller.new }
{
    new_object(rt, caller, engine, d, 0).is_ok()
}

/// Frees what a register points to.
#[tactic(auto, using(crate::proofs::HeldObjects::number_is, crate::proofs::HeldObjects::is_alone))]
fn free<E: Engine, R: Threads + Wait + Sync>(
    rt: &R,
    caller: &mut Caller,
    engine: &mut E,
    p: u8,
) -> Result<Freed, Double>
    requires may { MayAllocate (E.made_for engine.old) caller.old }
    requires register { p < 8 }
    ensures { GoesOn (E.made_for engine.new) caller.old caller.new }
{
    free_object(rt, caller, engine, p)
}

/// Creates this many objects, each in the next of the eight registers, and says whether all fit.
pub(crate) fn make_many<E: Engine, R: Threads + Wait + Sync>(
    rt: &R,
    caller: &mut Caller,
    engine: &mut E,
    count: u64,
) -> bool
    requires may { MayAllocate (E.made_for engine.old) caller.old }
    ensures { GoesOn (E.made_for engine.new) caller.old caller.new }
{
    let mut all_fit = true;
    for index in 0..count {
        all_fit &= make(rt, caller, engine, (index % 8) as u8);
    }
    all_fit
}

pub(crate) fn is_freed(answer: Result<Freed, Double>, due: bool) -> bool {
    matches!(answer, Ok(freed) if freed.due == due)
}

/// Frees what each register points to, and says whether each is freed and none is due.
fn free_eight<E: Engine, R: Threads + Wait + Sync>(
    rt: &R,
    caller: &mut Caller,
    engine: &mut E,
) -> bool
    requires may { MayAllocate (E.made_for engine.old) caller.old }
    ensures { GoesOn (E.made_for engine.new) caller.old caller.new }
{
    let mut none_due = true;
    for p in 0..8 {
        none_due &= is_freed(free(rt, caller, engine, p), false);
    }
    none_due
}

/// What the calls answer.
#[derive(Clone, Copy)]
pub(crate) struct Answers {
    pub(crate) all_fit: bool,
    pub(crate) one_more_fits: bool,
    pub(crate) eight_undue: bool,
    pub(crate) ninth_due: bool,
    pub(crate) ninth_again: bool,
}

/// Creates 32 objects, of which the second caller has the last eight and the first caller eight others, and one more;
/// then frees the first caller's eight, and one of the second's twice.
fn fill_and_free<E: Engine, R: Threads + Wait + Sync>(
    rt: &R,
    first: &mut Caller,
    second: &mut Caller,
    engine: &mut E,
) -> Answers
    requires may { BothMayAllocate (E.made_for engine.old) first.old second.old }
    ensures { BothGoOn (E.made_for engine.new) first.old second.old first.new second.new }
{
    let of_first = make_many(rt, first, engine, 24);
    let of_second = make_many(rt, second, engine, 8);
    let one_more_fits = make(rt, first, engine, 0);
    let eight_undue = free_eight(rt, first, engine);
    let ninth = free(rt, second, engine, 0);
    let again = free(rt, second, engine, 0);
    Answers {
        all_fit: of_first & of_second,
        one_more_fits,
        eight_undue,
        ninth_due: is_freed(ninth, true),
        ninth_again: again.is_ok(),
    }
}

/// What the calls answer on a heap of two callers, and its report.
pub(crate) fn fill_a_page<E: Engine, R: Threads + Wait + Sync>(
    rt: &R,
    two: TwoCallers,
    engine: &mut E,
) -> (Answers, Report)
    requires host { two.1 ≡ with_caller_made (with_caller_made (first_host two.0)) }
    requires callers { AreOfTwo two.0 two.2 two.3 }
    requires made_for { E.made_for engine.old ≡ two.0.config.pages }
{
    let (heap, host, first, second) = two;
    let mut one = Caller::new(heap.words(), first);
    let mut other = Caller::new(heap.words(), second);
    let answers = fill_and_free(rt, &mut one, &mut other, engine);
    let first = one.finish();
    let second = other.finish();
    (answers, close(heap, host, first, second))
}

#[cfg(test)]
mod tests {
    use super::fill_a_page;
    use crate::beginnings::two_callers;
    use crate::configs::one_page;
    use crate::reports::counts_of;
    use mk_never::Kind;
    use mk_run::lower::cycles::{Engine, StopEngine};

    /// A 33rd object doesn't fit, after a cycle that releases nothing. Of 64 words 16 are a quarter, so that the
    /// eighth free isn't due and the ninth is; its cycle releases nothing either, since each freed object is in a
    /// register.
    #[test]
    fn the_ninth_of_32_is_due(rt: HostRuntime) {
        let config = one_page(rt.alloc(), 2, 0, &[Kind::Num, Kind::Num]).expect(&rt, "memory");
        let two = two_callers(rt.alloc(), &config).expect(&rt, "memory");
        let mut engine = StopEngine::make(rt.alloc(), config.pages).expect(&rt, "memory");
        let (answers, report) = fill_a_page(&rt, two, &mut engine);
        assert_eq!(rt; (answers.all_fit, answers.one_more_fits), (true, false));
        assert!(rt; answers.eight_undue & answers.ninth_due & !answers.ninth_again);
        assert_eq!(rt; counts_of(&report), [64, 0, 9, 0, 2, 1]);
    }
}
