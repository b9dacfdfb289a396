//! What is proved of every object.
ghost use Rattle.std.specs.Prelude.{◌≡◌, ℕ, List, Option};
ghost use Rattle.mk_never.specs.NeverHeap.{NeverState};
ghost use Rattle.mk_jobs.specs.{Keeping.{World, Keeps}, Laws.IsAlwaysExplained, Typing.{Plan, IsTyped}};

/// What a client states and shows of its object.
pub trait Kept {
    type Job: Copy + Drop + Sync;

    type Done: Copy + Drop + Send;

    type Point: Copy;

    /// What a plain object of one thread is.
    ghost State: { Type 0 };

    ghost plan: { Plan Self.Job Self.Done Self.Point };

    ghost first: { State };

    ghost left_by: { State → Self.Job → Self.Done → Option State };

    ghost content: { NeverState → List ℕ → State → Type 0 };

    ghost Shared: { World → State → Type 0 };

    ghost Local: { World → ℕ → Self.Point → Option Self.Done → Type 0 };

    ghost Rely: { ℕ → World → World → Type 0 };

    ghost job_at: { Self.Point → Option Self.Job };

    fn keeps()
        ensures { Keeps Self.plan Self.left_by Self.first Self.content Self.Shared Self.Local Self.Rely Self.job_at };

    /// What the registers hold is what each operation asks, and no job ends with an object of its caller's own.
    ghost typed: { IsTyped plan };
}

/// What a client keeps explains all interleavings of its jobs.
#[tactic(auto, using(crate::proofs::Owing::decided_so))]
pub fn explained_by_keeping<O: Kept>()
    ensures { IsAlwaysExplained O.plan O.first O.left_by O.content }
{
    O::keeps()
}
