//! What is tried of each object that callers share, a stack or a queue: one caller alone, and four at once. A test asks
//! for jobs here, has callers do them, and asks what is wrong with what became of them.

use crate::large_runs::{agree, asked_by, numbers_from};
use crate::moves::{Move, Moved, moves_of, parted};
use mk_queue::{Dones, Jobs, Outcome};
use std::alloc::{AllocError, Global};

/// An object on which callers do jobs of type `J`, and are told of type `D` what became of each.
pub trait Shared<J: Copy + Drop, D: Copy + Drop> {
    /// The job that is to become this move.
    fn job_of(it: Move) -> J;

    /// What became of a job, if that fits it.
    fn move_of(job: J, done: D) -> Option<Move>;

    /// Whether one caller can take the numbers that another put in, the smaller ones first, out in this order.
    fn is_order(alloc: Global, taken: &[u64]) -> Result<bool, AllocError>;
}

fn jobs_for<S: Shared<J, D>, J: Copy + Drop, D: Copy + Drop>(
    alloc: Global,
    asked: &[Move],
) -> Option<Jobs<J>> {
    let mut list = Vec::new(alloc);
    for it in asked {
        list.push(S::job_of(*it)).ok()?;
    }
    Some(Jobs { list })
}

/// What became of a caller's jobs, if each is told what fits it, and memory suffices.
fn became<S: Shared<J, D>, J: Copy + Drop, D: Copy + Drop>(
    alloc: Global,
    jobs: &[J],
    dones: &[D],
) -> Option<Vec<Move>> {
    let mut moves = Vec::new(alloc);
    for (job, done) in jobs.iter().zip(dones) {
        moves.push(S::move_of(*job, *done)?).ok()?;
    }
    Some(moves)
}

/// The jobs of one caller alone that a row says, if it is a row, and memory suffices.
pub fn jobs_said<S: Shared<J, D>, J: Copy + Drop, D: Copy + Drop>(
    alloc: Global,
    row: &str,
) -> Option<Jobs<J>> {
    jobs_for::<S, J, D>(alloc, &moves_of(alloc, row)?)
}

/// Whether of one caller's jobs, and of no other's, became what the row says.
pub fn became_what_is_said<S: Shared<J, D>, J: Copy + Drop, D: Copy + Drop>(
    alloc: Global,
    row: &str,
    jobs: &[J],
    outcome: &Outcome<D>,
) -> Option<bool> {
    let dones = outcome.done.first()?;
    let found = became::<S, J, D>(alloc, jobs, &dones.list)?;
    Some(outcome.done.len() == 1 && found == moves_of(alloc, row)?)
}

/// The jobs of all four callers of a large run, if memory suffices.
pub fn jobs_of_four<S: Shared<J, D>, J: Copy + Drop, D: Copy + Drop>(
    alloc: Global,
) -> Option<Vec<Jobs<J>>> {
    let mut lists = Vec::new(alloc);
    for caller in 0..4 {
        let asked = asked_by(alloc, caller).ok()?;
        lists.push(jobs_for::<S, J, D>(alloc, &asked)?).ok()?;
    }
    Some(lists)
}

/// What each caller of a large run put in and took out.
fn moved_by_all<S: Shared<J, D>, J: Copy + Drop, D: Copy + Drop>(
    alloc: Global,
    lists: &[Jobs<J>],
    dones: &[Dones<D>],
) -> Option<Vec<Moved>> {
    let mut all = Vec::new(alloc);
    for (jobs, dones) in lists.iter().zip(dones) {
        let moves = became::<S, J, D>(alloc, &jobs.list, &dones.list)?;
        all.push(parted(alloc, &moves).ok()?).ok()?;
    }
    Some(all)
}

/// Whether one caller of a large run took the numbers of each caller out in an order in which it can.
fn is_order_of_each<S: Shared<J, D>, J: Copy + Drop, D: Copy + Drop>(
    alloc: Global,
    taken: &[u64],
) -> Result<bool, AllocError> {
    for from in 0..3 {
        if !S::is_order(alloc, &numbers_from(alloc, taken, from)?)? {
            return Ok(false);
        }
    }
    Ok(true)
}

/// Whether each caller of a large run took numbers out in such orders.
fn are_orders<S: Shared<J, D>, J: Copy + Drop, D: Copy + Drop>(
    alloc: Global,
    all: &[Moved],
) -> Result<bool, AllocError> {
    for moved in all {
        if !is_order_of_each::<S, J, D>(alloc, &moved.taken)? {
            return Ok(false);
        }
    }
    Ok(true)
}

/// What is wrong with what became of the jobs of a large run, if anything is.
pub fn what_is_wrong<S: Shared<J, D>, J: Copy + Drop, D: Copy + Drop>(
    alloc: Global,
    lists: &[Jobs<J>],
    outcome: &Outcome<D>,
) -> Option<&'static str> {
    let Some(all) = moved_by_all::<S, J, D>(alloc, lists, &outcome.done) else {
        return Some("what became of a job doesn't fit it");
    };
    if !matches!(are_orders::<S, J, D>(alloc, &all), Ok(true)) {
        return Some("a caller took numbers out in an order in which it can't");
    }
    if !matches!(agree(alloc, &all), Ok(true)) {
        return Some("a number wasn't taken out once");
    }
    None
}
