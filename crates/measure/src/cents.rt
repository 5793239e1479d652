//! The measure that adds cents.
ghost use Rattle.std.specs.Prelude.{◌≡◌, ◌+◌, ◌-◌, ◌^◌, min};
ghost use Rattle.std.proofs.Math.Path.{ap};
ghost use Rattle.measure.specs.Supplied.{cents};
ghost use Rattle.measure.specs.Capped.{cap, cap_associative};
ghost use Rattle.measure.specs.CentsMeasureLemmas.{of_sum};
ghost use Rattle.std.proofs.Common.{rules};

use crate::{Measure, Price};

/// A sum of cents in 64 bits, which stops at the largest number.
#[derive(Clone, Copy)]
pub struct Cents {
    pub sum: u64,
}

impl Measure for Cents {
    ghost meaning = { cents };

    ghost order_is_total = { Prim.search rules };

    ghost order_is_transitive = { Prim.search rules };

    ghost each_at_most_the_other_is_equal = { Prim.search rules };

    ghost joining_is_commutative = { Prim.search rules };

    ghost joining_is_associative = { unfold cap of_sum in λ a b c. ap of_sum (cap_associative 18446744073709551615 a.sum b.sum c.sum) };

    ghost joining_neutral_alters_nothing = { Prim.search rules };

    ghost joined_is_at_least_each_part = { Prim.search rules };

    fn neutral() -> Cents {
        Cents { sum: 0 }
    }

    fn read(price: Price) -> Cents {
        Cents {
            sum: u64::from(price.cents),
        }
    }

    fn join(self, other: Cents) -> Cents
        ensures meaning { result ≡ cents.joins self other }
        ensures sum { result.sum ≡ min (self.sum + other.sum) (2 ^ 64 - 1) }
    {
        Cents {
            sum: self.sum.saturating_add(other.sum),
        }
    }

    fn at_most(self, other: Cents) -> bool {
        self.sum <= other.sum
    }
}
