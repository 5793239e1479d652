//! When a cost reaches the best's.
ghost use Rattle.std.specs.Prelude.{◌≡◌};
ghost use Rattle.account.specs.Steps.{reaches};

use measure::Measure;

/// Whether a cost reaches the best's, which is to be at least that.
// One call forwarded: what makes a cost no better is said here once, for the tests and for the best.
pub fn reaches<M: Measure>(best: M, cost: M) -> bool
    ensures { result ≡ reaches M.meaning best cost }
{
    best.at_most(cost)
}
