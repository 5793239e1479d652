//! The supplied measures at their edges, and a measure that keeps the laws without being one of them.
ghost use Rattle.std.specs.Prelude.{max, nat_le};
ghost use Rattle.std.proofs.Common.{rules};

use crate::*;

/// Joins and compares as `Tier` does, and reads every price as neutral. It proves every law of a measure all the
/// same: the laws alone do not make a supplied measure, whose contracts say what it reads.
#[derive(Clone, Copy)]
struct Gratis {
    level: u8,
}

impl Measure for Gratis {
    ghost meaning = { record { neutral = record { level = 0 }; reads = λ _. record { level = 0 }; joins = λ a b. record { level = max a.level b.level }; at_most = λ a b. nat_le a.level b.level } };

    ghost order_is_total = { Prim.search rules };

    ghost order_is_transitive = { Prim.search rules };

    ghost each_at_most_the_other_is_equal = { Prim.search rules };

    ghost joining_is_commutative = { Prim.search rules };

    ghost joining_is_associative = { Prim.search rules };

    ghost joining_neutral_alters_nothing = { Prim.search rules };

    ghost joined_is_at_least_each_part = { Prim.search rules };

    fn neutral() -> Gratis {
        Gratis { level: 0 }
    }

    fn read(_price: Price) -> Gratis {
        Gratis { level: 0 }
    }

    fn join(self, other: Gratis) -> Gratis {
        Gratis {
            level: self.level.max(other.level),
        }
    }

    fn at_most(self, other: Gratis) -> bool {
        self.level <= other.level
    }
}

const DEAR: Price = Price {
    tier: 2,
    cents: 500,
};

#[test]
fn the_laws_do_not_pin_what_is_read(rt: HostRuntime) {
    assert_eq!(rt; <Gratis as Measure>::read(DEAR).level, 0);
    assert_eq!(rt; <Tier as Measure>::read(DEAR).level, 2);
    assert_eq!(rt; <Cents as Measure>::read(DEAR).sum, 500);
}

#[test]
fn cents_stop_at_the_largest_number(rt: HostRuntime) {
    let nearly = Cents { sum: u64::MAX - 1 };
    assert_eq!(rt; nearly.join(Cents { sum: 1 }).sum, u64::MAX);
    assert_eq!(rt; nearly.join(Cents { sum: 2 }).sum, u64::MAX);
}

#[test]
fn tier_takes_the_larger(rt: HostRuntime) {
    let low = Tier { level: 1 };
    let high = Tier { level: 3 };
    assert_eq!(rt; low.join(high).level, 3);
    assert_eq!(rt; high.join(low).level, 3);
}

#[test]
fn pairs_compare_the_first_side_first(rt: HostRuntime) {
    let low_tier = Price { tier: 0, cents: 70 };
    let few_cents = Price { tier: 1, cents: 60 };
    assert!(rt; TierThenCents::read(low_tier).at_most(TierThenCents::read(few_cents)));
    assert!(rt; !CentsThenTier::read(low_tier).at_most(CentsThenTier::read(few_cents)));
}
