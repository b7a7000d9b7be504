//! What an operator that isn't accepted leaves.

ghost use Rattle.std.specs.Prelude.{◌≡◌, ◌≢◌, ℕ, true, false};
ghost use Rattle.module_check.specs.declared.verdict.Verdict.TheVariants.{NotCovered};

use module_check::Verdict;

/// What an operator that isn't accepted leaves of its function.
#[derive(Clone, Copy)]
pub enum OnRefusal {
    /// The function has failed, unless the operator isn't covered.
    Fail,
    /// The function is as it was.
    LeaveNoTrace,
}

impl OnRefusal {
    /// Whether the function has failed at a verdict that isn't acceptance.
    pub fn fails_at(self, verdict: &Verdict) -> bool
        ensures failed { self ≡ OnRefusal.Fail → ((at : ℕ) → verdict.now ≢ NotCovered at) → result ≡ true }
        ensures not_failed { (at : ℕ) → verdict.now ≡ NotCovered at → result ≡ false }
        ensures no_trace { self ≡ OnRefusal.LeaveNoTrace → result ≡ false }
    {
        match self {
            OnRefusal::Fail => !verdict.is_not_covered(),
            OnRefusal::LeaveNoTrace => false,
        }
    }
}
