//! What stands for an accepted plan that threads share.

ghost use Rattle.std.specs.Prelude.{◌≡◌};
ghost use Rattle.plan_verifier.specs.Accepted.{AcceptedPlan};

use plan_verifier::Accepted;

/// What stands for an accepted plan. Code that starts threads takes any such type, so that only
/// its caller has to know that threads may share it.
pub trait Judged {
    ghost plan: { Self → AcceptedPlan };

    /// The accepted plan.
    fn accepted(&self) -> &Accepted
        ensures { result.now ≡ plan self.now };
}

impl Judged for Accepted {
    ghost plan = { λ a. a };

    fn accepted(&self) -> &Accepted {
        self
    }
}
