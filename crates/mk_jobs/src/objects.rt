//! An object that callers share: what its client states.
ghost use Rattle.std.specs.Prelude.{◌≡◌, ℕ, IfOk, List, Option};
ghost use Rattle.mk_never.specs.NeverHeap.{NeverState};
ghost use Rattle.mk_jobs.specs.{Laws.IsAlwaysExplained, Typing.{Plan, IsTyped}};

use crate::steps::Step;
use mk_core::GlobalTable;
use mk_never::{NoMemory, TypeTable};
use std::alloc::Global;

/// An object on the heap that callers share, as the jobs that they do on it. A job is a graph of points: `step` has the
/// operation of each, and where its answers lead.
pub trait Object {
    type Job: Copy + Drop + Sync;

    type Done: Copy + Drop + Send;

    type Point: Copy + Sync;

    /// What a plain object of one thread is.
    ghost State: { Type 0 };

    ghost plan: { Plan Self.Job Self.Done Self.Point };

    ghost first: { State };

    /// What a job leaves of it that ended so, if it can end so.
    ghost left_by: { State → Self.Job → Self.Done → Option State };

    /// The heap has it as its content, made of these allocations.
    ghost content: { NeverState → List ℕ → State → Type 0 };

    /// The types of the heap.
    fn types(alloc: Global) -> Result<TypeTable, NoMemory>
        ensures { IfOk result (λ types. types ≡ plan.types) };

    /// The types that its globals point to.
    fn globals(alloc: Global) -> Result<GlobalTable, NoMemory>
        ensures { IfOk result (λ globals. globals ≡ plan.globals) };

    /// How many registers it uses, from 0 on. After each job they are null.
    fn registers() -> u8
        ensures { result ≡ plan.registers };

    /// Where the first caller begins to make the object, before its jobs.
    fn founding() -> Self::Point
        ensures { result ≡ plan.founding };

    fn starting(job: Self::Job) -> Self::Point
        ensures { result ≡ plan.starting job };

    /// The founding ends with an outcome as well, which nobody is told.
    fn step(point: Self::Point) -> Step<Self::Point, Self::Done>
        ensures { result ≡ plan.step point };

    /// The point, with the number that was loaded.
    fn with_number(point: Self::Point, n: u64) -> Self::Point
        ensures { result ≡ plan.with_number point n };

    /// What the registers hold is what each operation asks, and no job ends with an object of its caller's own.
    ghost typed: { IsTyped plan };
}

/// However the jobs on it are interleaved, they are linearizable, and no object of the heap leaks. It is the contract
/// of
/// a function that does nothing, so that its proof may stand in `proofs`.
pub trait Linearizable: Object {
    fn explained()
        ensures { IsAlwaysExplained Self.plan Self.first Self.left_by Self.content };
}

/// The same promise, where the object isn't known. It does nothing.
pub fn explained_of<O: Linearizable>()
    ensures { IsAlwaysExplained O.plan O.first O.left_by O.content }
{
    O::explained()
}
