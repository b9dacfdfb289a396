//! The operation of a point, and where its answer leads.
ghost use Rattle.std.specs.Prelude.{◌≡◌};
ghost use Rattle.mk_jobs.specs.Passes.{next_by, number_answered, op_of, says_full, says_yes};

use crate::objects::Object;
use crate::steps::Step;
use mk_core::Answer;
use mk_never::Op;

/// The operation of a step; none at the end of a job.
#[inline(always)]
pub(crate) fn op_of<P: Copy, D: Copy>(asked: Step<P, D>) -> Option<Op>
    ensures { result ≡ op_of asked }
{
    match asked {
        Step::New { d, ty, .. } => Some(Op::New { d, ty, full: false }),
        Step::Free { p, .. } => Some(Op::Free { p }),
        Step::GetNum { q, i, .. } => Some(Op::GetNum { q, i }),
        Step::SetNum { q, i, n, .. } => Some(Op::SetNum { q, i, n }),
        Step::GetPtr { d, q, i, .. } => Some(Op::GetPtr { d, q, i }),
        Step::SetPtr { q, i, p, .. } => Some(Op::SetPtr { q, i, p }),
        Step::CasPtr { q, i, p, r, .. } => Some(Op::CasPtr { q, i, p, r }),
        Step::GetGlobal { d, g, .. } => Some(Op::GetGlobal { d, g }),
        Step::SetGlobal { g, p, .. } => Some(Op::SetGlobal { g, p }),
        Step::Clear { d, .. } => Some(Op::Clear { d }),
        Step::Same { p, q, .. } => Some(Op::Same { p, q }),
        Step::IsNull { p, .. } => Some(Op::IsNull { p }),
        Step::End(_) => None,
    }
}

/// Whether a New found no place.
fn says_full(told: Answer) -> bool
    ensures { result ≡ says_full told }
{
    matches!(told, Answer::Full)
}

/// Whether what was asked is so.
fn says_yes(told: Answer) -> bool
    ensures { result ≡ says_yes told }
{
    match told {
        Answer::Num(n) => n == 1,
        _ => false,
    }
}

/// The number that was loaded.
fn number_answered(told: Answer) -> u64
    ensures { result ≡ number_answered told }
{
    match told {
        Answer::Num(n) => n,
        _ => 0,
    }
}

/// The point to which the answer leads.
#[inline(always)]
pub(crate) fn next_by<O: Object>(
    point: O::Point,
    asked: Step<O::Point, O::Done>,
    told: Answer,
) -> O::Point
    ensures { result ≡ next_by O.plan.with_number point asked told }
{
    match asked {
        Step::New { to, full, .. } => { if says_full(told) { full } else { to } }
        Step::GetNum { to, .. } => O::with_number(to, number_answered(told)),
        Step::CasPtr { yes, no, .. } | Step::Same { yes, no, .. } | Step::IsNull { yes, no, .. } =>
            { if says_yes(told) { yes } else { no } }
        Step::Free { to, .. }
        | Step::SetNum { to, .. }
        | Step::GetPtr { to, .. }
        | Step::SetPtr { to, .. }
        | Step::GetGlobal { to, .. }
        | Step::SetGlobal { to, .. }
        | Step::Clear { to, .. } => to,
        Step::End(_) => point,
    }
}
