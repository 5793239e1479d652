//! The measure made of two measures.
ghost use Rattle.measure.specs.Supplied.{pair_of};
ghost use Rattle.measure.specs.Sides.{sides_total, sides_transitive, sides_equal, sides_least};
ghost use Rattle.measure.specs.PairMeasureLemmas.{both};
ghost use Rattle.std.proofs.Common.{rules};

use crate::{Cents, Measure, Price, Tier};

/// Two costs side by side; the first decides, and between equal firsts the second.
#[derive(Clone, Copy)]
pub struct Pair<A, B> {
    pub first: A,
    pub second: B,
}

/// The larger tier first, then the sum of cents.
pub type TierThenCents = Pair<Tier, Cents>;

/// The sum of cents first, then the larger tier.
pub type CentsThenTier = Pair<Cents, Tier>;

impl<A: Measure, B: Measure> Measure for Pair<A, B> {
    ghost meaning = { pair_of A.Measure.meaning B.Measure.meaning };

    ghost order_is_total = { λ a b.
        let le = A.Measure.meaning.at_most in
        sides_total (le a.first b.first) (le b.first a.first) _ _ (B.Measure.order_is_total a.second b.second) };

    ghost order_is_transitive = { λ a b c.
        let le = A.Measure.meaning.at_most in
        sides_transitive _ (le b.first a.first) _ (le b.first c.first) (le c.first b.first) _ _ _ _
        (A.Measure.order_is_total a.first b.first)
        (A.Measure.order_is_transitive a.first b.first c.first)
        (A.Measure.order_is_transitive c.first a.first b.first)
        (A.Measure.order_is_transitive b.first c.first a.first)
        (B.Measure.order_is_transitive a.second b.second c.second) };

    ghost each_at_most_the_other_is_equal = { λ a b h k.
        let e = sides_equal _ _ _ _ (A.Measure.order_is_total a.first b.first) h k in
        both a b (A.Measure.each_at_most_the_other_is_equal a.first b.first e.0 e.1)
        (B.Measure.each_at_most_the_other_is_equal a.second b.second e.2 e.3) };

    ghost joining_is_commutative = { Prim.search rules };

    ghost joining_is_associative = { Prim.search rules };

    ghost joining_neutral_alters_nothing = { Prim.search rules };

    ghost joined_is_at_least_each_part = { λ a b.
        let f = A.Measure.joined_is_at_least_each_part a.first b.first in
        let s = B.Measure.joined_is_at_least_each_part a.second b.second in
        (sides_least _ _ _ f.0 s.0, sides_least _ _ _ f.1 s.1) };

    fn neutral() -> Pair<A, B> {
        Pair {
            first: A::neutral(),
            second: B::neutral(),
        }
    }

    fn read(price: Price) -> Pair<A, B> {
        Pair {
            first: A::read(price),
            second: B::read(price),
        }
    }

    fn join(self, other: Pair<A, B>) -> Pair<A, B> {
        Pair {
            first: self.first.join(other.first),
            second: self.second.join(other.second),
        }
    }

    fn at_most(self, other: Pair<A, B>) -> bool {
        if !other.first.at_most(self.first) {
            return true;
        }
        self.first.at_most(other.first) && self.second.at_most(other.second)
    }
}
