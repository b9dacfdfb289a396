//! Objects freed by direct calls under the turn, on one page of 32 cells. No cycle is made where a free is due.
ghost use Rattle.std.specs.Prelude.{◌≡◌, ◌<◌, IfSome};
ghost use Rattle.mk_heap_tests.specs.HeldObjects.{IsPassOfObjects, AreOfTwo};

use crate::beginnings::Split;
use crate::objects::make_many;
use crate::turns::take;
use mk_never::Op;
use mk_run::lower::callers::Caller;
use mk_run::lower::cycles::Engine;
use mk_run::lower::objects::{Double, Freed, retire_object};
use mk_run::lower::words::{Pass, Words};
use std::sync::Wait;
use std::thread::Threads;

/// Frees what a register points to. The turn is given back unless that is due.
fn retire<R: Threads + Wait + Sync>(
    rt: &R,
    words: &Words,
    home: Pass,
    number: u64,
    p: u8,
) -> (Result<Freed, Double>, Option<Pass>)
    requires pass { IsPassOfObjects words.now number home }
    requires exists { number < words.now.config.callers }
    requires register { p < 8 }
    ensures { IfSome result.1 (λ back. IsPassOfObjects words.now number back) }
{
    let mut turn = take(rt, words, home, Some(Op::Free { p }));
    match retire_object(rt, words, &mut turn, p) {
        Ok(freed) => {
            if freed.due {
                turn.abandon();
                return (Ok(freed), None);
            }
            (Ok(freed), Some(turn.give(words)))
        }
        Err(double) => (Err(double), Some(turn.give(words))),
    }
}

/// Frees what each register points to, if none of these is due, nor freed before.
fn retire_eight<R: Threads + Wait + Sync>(
    rt: &R,
    words: &Words,
    home: Pass,
    number: u64,
) -> Option<Pass>
    requires pass { IsPassOfObjects words.now number home }
    requires exists { number < words.now.config.callers }
    ensures { IfSome result (λ back. IsPassOfObjects words.now number back) }
{
    let mut pass = home;
    for p in 0..8 {
        match retire(rt, words, pass, number, p) {
            (Ok(_), Some(back)) => pass = back,
            _ => return None,
        }
    }
    Some(pass)
}

/// What is answered to a second free of the eighth object, and to a free of the ninth.
#[derive(Clone, Copy)]
pub(crate) struct Answers {
    pub(crate) eighth_again: Result<Freed, Double>,
    pub(crate) ninth: Result<Freed, Double>,
}

/// Frees eight objects of the first caller, if none is due, and one of the second.
fn retire_nine<R: Threads + Wait + Sync>(
    rt: &R,
    words: &Words,
    first: Pass,
    second: Pass,
) -> Option<Answers>
    requires first { IsPassOfObjects words.now 0 first }
    requires second { IsPassOfObjects words.now 1 second }
    requires two { words.now.config.callers ≡ 2 }
{
    let first = retire_eight(rt, words, first, 0)?;
    let (eighth_again, _) = retire(rt, words, first, 0, 7);
    let (ninth, _) = retire(rt, words, second, 1, 0);
    Some(Answers {
        eighth_again,
        ninth,
    })
}

/// What the frees answer after 32 objects, if all fit.
pub(crate) fn fill_and_retire<E: Engine, R: Threads + Wait + Sync>(
    rt: &R,
    split: Split,
    engine: &mut E,
) -> Option<Answers>
    requires callers { AreOfTwo split.0 split.2 split.3 }
    requires made_for { E.made_for engine.old ≡ split.0.config.pages }
{
    let (words, _host, first, second) = split;
    let mut one = Caller::new(&words, first);
    let mut other = Caller::new(&words, second);
    let of_first = make_many(rt, &mut one, engine, 24);
    let of_second = make_many(rt, &mut other, engine, 8);
    let first = one.finish();
    let second = other.finish();
    if !(of_first & of_second) {
        return None;
    }
    retire_nine(rt, &words, first, second)
}

#[cfg(test)]
mod tests {
    use super::fill_and_retire;
    use crate::beginnings::split_callers;
    use crate::configs::one_page;
    use crate::objects::is_freed;
    use mk_never::Kind;
    use mk_run::lower::cycles::{Engine, StopEngine};

    /// Of 64 words 16 are a quarter, so that the eighth free isn't due and the ninth is.
    #[test]
    fn the_ninth_that_is_retired_is_due(rt: HostRuntime) {
        let config = one_page(rt.alloc(), 2, 0, &[Kind::Num, Kind::Num]).expect(&rt, "memory");
        let split = split_callers(rt.alloc(), &config).expect(&rt, "memory");
        let mut engine = StopEngine::make(rt.alloc(), config.pages).expect(&rt, "memory");
        let answers = fill_and_retire(&rt, split, &mut engine).expect(
            &rt,
            "all fit, and none is due",
        );
        assert!(rt; answers.eighth_again.is_err() & is_freed(answers.ninth, true));
    }
}
