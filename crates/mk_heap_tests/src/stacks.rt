//! Callers on one stack, each on a thread of its own: what became of their jobs, and what is left.
ghost use Rattle.std.specs.Prelude.{◌≤◌};

use crate::large_runs::ThenTheRest;
use crate::moves::{Move, moves_of, parted};
use crate::shared::{Shared, became_what_is_said, jobs_of_four, jobs_said, what_is_wrong};
use mk_run::lower::cycles::MostlyEngine;
use mk_run::lower::heaps::NoPace;
use mk_stack::{Done, Job, run_stack};
use std::alloc::{AllocError, Global};
use std::sync::Wait;
use std::thread::Threads;

/// What one caller alone pushes and pops on a page. It has 32 cells: one for the top, and 31 for nodes.
const ROWS: &str = "\
the last number in is the first out | - +1 +2 -2 +3 -3 -1 - +4 +4 -4 -4 -
the cell of a popped node is there for the next one | \
    +0 +1 +2 +3 +4 +5 +6 +7 +8 +9 +10 +11 +12 +13 +14 +15 +16 +17 +18 +19 +20 +21 +22 +23 +24 +25 +26 +27 +28 +29 +30 \
    +31! -30 +32 -32 -29 -28 +33 +34 +35 +36! -35 -34 -33 \
    -27 -26 -25 -24 -23 -22 -21 -20 -19 -18 -17 -16 -15 -14 -13 -12 -11 -10 -9 -8 -7 -6 -5 -4 -3 -2 -1 -0 -
";

/// A stack that callers share.
struct OfStack;

impl Shared<Job, Done> for OfStack {
    fn job_of(it: Move) -> Job {
        match it {
            Move::Put(number) | Move::Full(number) => Job::Push(number),
            Move::Taken(_) | Move::Empty => Job::Pop,
        }
    }

    fn move_of(job: Job, done: Done) -> Option<Move> {
        match (job, done) {
            (Job::Push(number), Done::Pushed) => Some(Move::Put(number)),
            (Job::Push(number), Done::Full) => Some(Move::Full(number)),
            (Job::Pop, Done::Popped(number)) => Some(Move::Taken(number)),
            (Job::Pop, Done::Empty) => Some(Move::Empty),
            _ => None,
        }
    }

    fn is_order(alloc: Global, taken: &[u64]) -> Result<bool, AllocError> {
        is_stack_order(alloc, taken)
    }
}

/// Whether one caller alone, on a heap of one page, does what a row says.
fn goes<R: Threads + Wait + Sync>(rt: &R, alloc: Global, row: &str) -> Option<bool> {
    let lists = [jobs_said::<OfStack, Job, Done>(alloc, row)?];
    let run = run_stack::<MostlyEngine, NoPace, R>(rt, alloc, 1, 1, 0, &lists, &NoPace).ok()?;
    became_what_is_said::<OfStack, Job, Done>(alloc, row, &lists[0].list, &run)
}

#[test]
fn one_caller_pops_what_it_pushed_last(rt: HostRuntime) {
    for row in ROWS.lines() {
        assert!(rt; goes(&rt, rt.alloc(), row) == Some(true), "{row}");
    }
}

/// Takes what is next in this order off the stack, as long as that is its top. What is left of the order.
fn take_down<'a>(stack: &mut Vec<u64>, order: &'a [u64]) -> &'a [u64] {
    let mut rest = order;
    for _number in order {
        match rest.split_first() {
            Some((next, others)) if stack.last() == Some(next) => {
                stack.pop();
                rest = others;
            }
            _ => break,
        }
    }
    rest
}

/// Whether numbers that are put on a stack, the smaller ones first, can be taken off in this order.
fn is_stack_order(alloc: Global, order: &[u64]) -> Result<bool, AllocError> {
    let mut ascending = order.to_vec(alloc)?;
    ascending.sort()?;
    let mut stack = Vec::new(alloc);
    let mut rest = order;
    for number in &ascending {
        stack.push(*number)?;
        rest = take_down(&mut stack, rest);
    }
    Ok(rest.is_empty())
}

/// Orders of three numbers, and whether they are those of a stack: of three numbers on it the lowest isn't taken off
/// between the uppermost and the middle one.
const ORDERS: &str = "\
each is popped before the next is pushed | -1 -2 -3 | yes
the first is popped before the others are pushed | -1 -3 -2 | yes
two are pushed and popped, and then one | -2 -1 -3 | yes
the first lies below both others, one after the other | -2 -3 -1 | yes
the lowest of three is popped before the middle one | -3 -1 -2 | no
all are pushed, and then popped | -3 -2 -1 | yes
";

/// Whether the order of a row is that of a stack just if the row says so.
fn is_as_said(alloc: Global, row: &str) -> Option<bool> {
    let (order, said) = row.rsplit_once(" | ")?;
    let order = parted(alloc, &moves_of(alloc, order)?).ok()?.taken;
    Some(is_stack_order(alloc, &order).ok()? == (said == "yes"))
}

#[test]
fn one_order_of_three_is_not_that_of_a_stack(rt: HostRuntime) {
    for row in ORDERS.lines() {
        assert!(rt; is_as_said(rt.alloc(), row) == Some(true), "{row}");
    }
}

/// What is wrong where four callers do their jobs beside so many markers, if anything is. There is room for all
/// numbers.
fn wrong_of_four<R: Threads + Wait + Sync>(
    rt: &R,
    alloc: Global,
    markers: u64,
) -> Option<&'static str>
    requires markers { markers ≤ 8 }
{
    let Some(lists) = jobs_of_four::<OfStack, Job, Done>(alloc) else {
        return Some("memory is refused");
    };
    if lists.len() != 4 {
        return Some("there aren't four callers");
    }
    let pace = ThenTheRest::new();
    let run = run_stack::<MostlyEngine, ThenTheRest, R>(
        rt, alloc, 4096, 4096, markers, &lists, &pace,
    );
    let Ok(run) = run else {
        return Some("memory is refused");
    };
    if pace.was_in_vain() {
        return Some("a caller waited in vain");
    }
    what_is_wrong::<OfStack, Job, Done>(alloc, &lists, &run)
}

/// Each number that is pushed is popped once, in the order of a stack.
#[test]
fn four_callers_pop_as_of_a_stack(rt: HostRuntime) {
    for markers in [0, 2] {
        let wrong = wrong_of_four(&rt, rt.alloc(), markers);
        assert_eq!(rt; wrong, None, "beside {markers} markers");
    }
}
