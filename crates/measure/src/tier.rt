//! The measure that takes the larger tier.
ghost use Rattle.measure.specs.Supplied.{tier};
ghost use Rattle.std.proofs.Common.{rules};

use crate::{Measure, Price};

/// The largest tier met.
#[derive(Clone, Copy)]
pub struct Tier {
    pub level: u8,
}

impl Measure for Tier {
    ghost meaning = { tier };

    ghost order_is_total = { Prim.search rules };

    ghost order_is_transitive = { Prim.search rules };

    ghost each_at_most_the_other_is_equal = { Prim.search rules };

    ghost joining_is_commutative = { Prim.search rules };

    ghost joining_is_associative = { Prim.search rules };

    ghost joining_neutral_alters_nothing = { Prim.search rules };

    ghost joined_is_at_least_each_part = { Prim.search rules };

    fn neutral() -> Tier {
        Tier { level: 0 }
    }

    fn read(price: Price) -> Tier {
        Tier { level: price.tier }
    }

    fn join(self, other: Tier) -> Tier {
        Tier {
            level: self.level.max(other.level),
        }
    }

    fn at_most(self, other: Tier) -> bool {
        self.level <= other.level
    }
}
