//! Two callers at once, each on a thread of its own, whose calls are on registers that stay null.
ghost use Rattle.std.specs.Prelude.{◌≡◌, ◌<◌, true};
ghost use Rattle.mk_run.specs.Below.Heaps.Hosts.{first_host, with_caller_made};
ghost use Rattle.mk_run.specs.Below.Heaps.Hosts.{IsFirstPass};
ghost use Rattle.mk_heap_tests.specs.HeldObjects.{AreOfTwo, HoldsNull, IsPassFor, StaysNull};

use crate::beginnings::{TwoCallers, close};
use mk_run::lower::callers::{Caller, Refusal};
use mk_run::lower::heaps::{Heap, Report};
use mk_run::lower::words::{Held, Pass};
use std::thread;
use std::thread::Threads;

/// How many rounds of calls each caller makes.
const ROUNDS: u64 = 1000;

fn says_yes(answer: Result<bool, Held>) -> bool {
    matches!(answer, Ok(true))
}

fn is_null(answer: Result<u64, Refusal>) -> bool {
    matches!(answer, Err(Refusal::Null))
}

/// Makes a call of each sort, and says whether they are answered as they should be where all registers and globals are
/// null and no gate is held.
fn make_round(caller: &mut Caller) -> bool
    requires home { caller.old.home ≡ true }
    requires null { HoldsNull caller.old.pass }
    ensures home { caller.new.home ≡ true }
    ensures stays { StaysNull caller.old.pass caller.new.pass }
{
    let moved = caller.move_ptr(0, 1);
    let stored = caller.set_global(0, 1);
    let loaded = caller.get_global(2, 0);
    let same = caller.same(1, 2);
    let number = caller.get_num(1, 0);
    moved.is_ok() & stored.is_ok() & loaded.is_ok() & says_yes(same) & is_null(number)
}

/// Makes all rounds, and says whether all calls are answered as they should be.
fn make_rounds(caller: &mut Caller) -> bool
    requires home { caller.old.home ≡ true }
    requires null { HoldsNull caller.old.pass }
    ensures home { caller.new.home ≡ true }
    ensures stays { StaysNull caller.old.pass caller.new.pass }
{
    let mut fine = true;
    for _round in 0..ROUNDS {
        fine &= make_round(caller);
    }
    fine
}

/// The pass of a caller that made its rounds, and whether all was fine.
#[derive(Drop)]
struct Made {
    pass: Pass,
    fine: bool,
}

/// The work of a caller's thread.
fn make_alone(heap: &Heap, pass: Pass, number: u64) -> Made
    requires pass { IsFirstPass heap.now number pass }
    requires exists { number < heap.now.config.callers }
    ensures { IsPassFor heap.now number result.pass }
{
    let mut caller = Caller::new(heap.words(), pass);
    let fine = make_rounds(&mut caller);
    Made {
        pass: caller.finish(),
        fine,
    }
}

/// Both callers make their rounds, each on a thread of its own.
fn make_both<R: Threads + Sync>(rt: &R, heap: &Heap, first: Pass, second: Pass) -> (Made, Made)
    requires first { IsFirstPass heap.now 0 first }
    requires second { IsFirstPass heap.now 1 second }
    requires two { heap.now.config.callers ≡ 2 }
    ensures first { IsPassFor heap.now 0 result.0.pass }
    ensures second { IsPassFor heap.now 1 result.1.pass }
{
    thread::join(
        rt,
        move || -> Made
            requires pass { IsFirstPass heap.now 0 first }
            requires exists { 0 < heap.now.config.callers }
            ensures { IsPassFor heap.entry.now 0 result.pass }
        { make_alone(heap, first, 0) },
        move || -> Made
            requires pass { IsFirstPass heap.now 1 second }
            requires exists { 1 < heap.now.config.callers }
            ensures { IsPassFor heap.entry.now 1 result.pass }
        { make_alone(heap, second, 1) },
    )
}

/// The report of a heap whose two callers made their rounds at once, and whether all was fine.
pub(crate) fn two_at_once<R: Threads + Sync>(rt: &R, two: TwoCallers) -> (Report, bool)
    requires host { two.1 ≡ with_caller_made (with_caller_made (first_host two.0)) }
    requires callers { AreOfTwo two.0 two.2 two.3 }
{
    let (heap, host, first, second) = two;
    let (one, other) = make_both(rt, &heap, first, second);
    let fine = one.fine & other.fine;
    (close(heap, host, one.pass, other.pass), fine)
}

#[cfg(test)]
mod tests {
    use super::two_at_once;
    use crate::beginnings::two_callers;
    use crate::configs::one_page;
    use crate::reports::counts_of;
    use mk_never::Kind;

    /// Nobody holds a gate, so no call is refused for that.
    #[test]
    fn two_callers_make_their_calls_at_once(rt: HostRuntime) {
        let mut config = one_page(rt.alloc(), 2, 0, &[Kind::Num]).expect(&rt, "memory");
        config.globals.add(0).expect(&rt, "memory");
        let two = two_callers(rt.alloc(), &config).expect(&rt, "memory");
        let (report, fine) = two_at_once(&rt, two);
        assert!(rt; fine);
        assert_eq!(rt; counts_of(&report), [0; 6]);
    }
}
