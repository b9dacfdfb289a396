//! The steps of a schedule's forms.
ghost use Rattle.std.specs.Prelude.{◌≡◌};
ghost use Rattle.mk_check.specs.Feed.{ends_call};
ghost use Rattle.mk_replay.specs.Replays.{step_of};

use mk_core::Step;
use mk_never::Op;

/// Whether the step is the last one of a call.
pub(crate) fn ends_call(step: Step) -> bool
    ensures { result ≡ ends_call step }
{
    matches!(step, Step::Leave | Step::Give)
}

/// What no `enter` may carry: what it carries before its script is asked.
pub(crate) const NOTHING_TO_ENTER: Op = Op::New {
    d: 0,
    ty: 0,
    full: false,
};

/// The step of a form, where this is the script's next operation.
pub(crate) fn step_of(form: Step, op: Option<Op>) -> Step
    ensures { result ≡ step_of form op }
{
    match form {
        Step::Enter(_) => Step::Enter(op.unwrap_or(NOTHING_TO_ENTER)),
        Step::Take(_) => Step::Take(op),
        step => step,
    }
}
