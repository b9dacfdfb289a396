//! A question that is asked of each number below one.
ghost use Rattle.std.specs.Prelude.{◌≡◌, ℕ, Bool, ◌<◌};
ghost use Rattle.mk_core.specs.Words.{all_below};

/// Whether the test holds of each number below `count`.
#[tactic(auto, using(crate::proofs::AllBelow::all_below_facts))]
pub(crate) fn all_below<F: Fn(u64) -> bool>(count: u64, test: F) -> bool
    requires { F.IsAlwaysCallable test }
    ensures { (asked : ℕ → Bool) → ((k : ℕ) (answer : Bool) → k < count → F.post test k answer → answer ≡ asked k)
        → result ≡ all_below count asked }
{
    for k in 0..count {
        if !test(k) {
            return false;
        }
    }
    true
}
