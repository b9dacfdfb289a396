//! A large run of four callers on an object that they share: what each asks for, and when all of it was answered.

use crate::moves::{Move, Moved};
use mk_run::lower::heaps::Pace;
use std::alloc::{AllocError, Global};
use std::sync::atomic::{AtomicBool, AtomicU64, Ordering};
use std::thread::yield_now;

/// The jobs that each caller of a large run does beside the others.
const JOBS_EACH: u64 = 25_000;

/// How many jobs a caller of a large run does. When the others have done theirs, caller 3 takes out what is left, and
/// finds nothing at last.
fn jobs_of(caller: u64) -> u64 {
    if caller == 3 {
        3 * JOBS_EACH + 1
    } else {
        JOBS_EACH
    }
}

/// What a job of a caller is to become. Callers 0 and 1 put two numbers in, take two out, and so on; caller 2 only puts
/// in, and caller 3 only takes out. No number is put in twice, and each caller's become larger.
fn asked(caller: u64, job: u64) -> Move {
    let puts = match caller {
        2 => true,
        3 => false,
        _ => job % 4 < 2,
    };
    if puts {
        Move::Put(caller.wrapping_mul(JOBS_EACH).wrapping_add(job))
    } else {
        Move::Empty
    }
}

/// What the jobs of a caller are to become. What a job finds to take out isn't asked.
pub fn asked_by(alloc: Global, caller: u64) -> Result<Vec<Move>, AllocError> {
    let mut moves = Vec::new(alloc);
    for job in 0..jobs_of(caller) {
        moves.push(asked(caller, job))?;
    }
    Ok(moves)
}

/// How often caller 3 waits for the others.
const MOST_YIELDS: u64 = 10_000_000;

/// Holds caller 3 of a large run back, until the others have done all their jobs.
#[derive(Drop)]
pub struct ThenTheRest {
    ended: AtomicU64,
    in_vain: AtomicBool,
}

impl ThenTheRest {
    /// None of the others has done its jobs yet.
    pub fn new() -> ThenTheRest {
        ThenTheRest {
            ended: AtomicU64::new(0),
            in_vain: AtomicBool::new(false),
        }
    }

    /// Whether caller 3 waited so long that it went on.
    pub fn was_in_vain(&self) -> bool {
        self.in_vain.load(Ordering::SeqCst)
    }
}

impl Pace for ThenTheRest {
    fn before(&self, caller: u64, job: u64) {
        if caller != 3 || job != JOBS_EACH {
            return;
        }
        for _yield in 0..MOST_YIELDS {
            if self.ended.load(Ordering::SeqCst) == 3 {
                return;
            }
            yield_now();
        }
        self.in_vain.store(true, Ordering::SeqCst);
    }

    fn answered(&self, caller: u64, job: u64) {
        if caller != 3 && job == JOBS_EACH - 1 {
            self.ended.fetch_add(1, Ordering::SeqCst);
        }
    }

    fn marked(&self, _marker: u64) {}
}

/// Those of the numbers that this caller of a large run put in.
pub fn numbers_from(alloc: Global, numbers: &[u64], caller: u64) -> Result<Vec<u64>, AllocError> {
    let mut own = Vec::new(alloc);
    for number in numbers {
        if *number / JOBS_EACH == caller {
            own.push(*number)?;
        }
    }
    Ok(own)
}

/// Whether all numbers of a large run were put in, and each of them was taken out once.
pub fn agree(alloc: Global, all: &[Moved]) -> Result<bool, AllocError> {
    let mut put = Vec::new(alloc);
    let mut taken = Vec::new(alloc);
    for moved in all {
        put.extend_from_slice(&moved.put)?;
        taken.extend_from_slice(&moved.taken)?;
    }
    put.sort()?;
    taken.sort()?;
    Ok(put.len() as u64 == 2 * JOBS_EACH && put == taken)
}
