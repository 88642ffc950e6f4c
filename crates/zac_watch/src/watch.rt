//! Watches, to which the steps of a run are shown.

ghost use Rattle.std.specs.Prelude.{◌≡◌, ◌+◌, ℕ, ◌≤◌, ◌-◌, ◌^◌, min};
ghost use Rattle.zac_watch.specs.Weights.{weight};

use crate::kind::Kind;
use zair_form::Step;

/// A watch, which adds up what the steps weigh that it is shown.
///
/// It has a kind, which never changes, and a sum.
pub trait Watch: Drop {
    ghost use Rattle.zac_watch.specs.declared.kind.Kind.{Kind};

    ghost kind: { Self → Kind };

    ghost sum: { Self → ℕ };

    /// Its kind.
    fn kind(&self) -> Kind
        ensures { result ≡ kind self.now };

    /// Shows it a step: its sum is then the old one and the weight of the step for its kind, and at most `u128::MAX`.
    fn see(&mut self, step: &Step)
        ensures kind { kind self.new ≡ kind self.old }
        ensures sum { sum self.new ≡ min (2 ^ 128 - 1) (sum self.old + weight (kind self.old) step.now) };

    /// Its sum so far.
    fn sum(&self) -> u128
        ensures { result ≡ sum self.now };
}

/// The usual watch: a kind and a sum.
#[derive(Clone, Copy, Debug)]
pub struct Counter {
    kind: Kind,
    sum: u128,
}

impl Counter {
    /// A watch of this kind with the sum 0.
    pub fn new(kind: Kind) -> Counter
        ensures kind { result.kind ≡ kind }
        ensures sum { result.sum ≡ 0 }
    {
        Counter { kind, sum: 0 }
    }
}

impl Watch for Counter {
    ghost kind = { λ c. c.kind };

    ghost sum = { λ c. c.sum };

    fn kind(&self) -> Kind {
        self.kind
    }

    fn see(&mut self, step: &Step) {
        self.sum = self.sum.saturating_add(u128::from(self.kind.weight(step)));
    }

    fn sum(&self) -> u128 {
        self.sum
    }
}
