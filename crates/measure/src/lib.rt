//! What a price costs: the trait `Measure`, and the measures that are supplied.
#![tactic(auto)]

ghost use Rattle.std.specs.Prelude.{◌≡◌, ℕ, true, ◌⊎◌};
ghost use Rattle.measure.specs.Meaning.{Meaning};

mod cents;
mod pair;
mod price;
mod shown;
#[cfg(test)]
mod tests;
mod tier;

pub use cents::Cents;
pub use pair::{CentsThenTier, Pair, TierThenCents};
pub use price::Price;
pub use tier::Tier;

/// A measure; the implementing type is the cost itself.
pub trait Measure: Copy {
    ghost meaning: { Meaning Self };

    /// The cost of nothing.
    fn neutral() -> Self
        ensures { result ≡ meaning.neutral };

    /// A price as a cost.
    fn read(price: Price) -> Self
        ensures { result ≡ meaning.reads price };

    /// Two costs as one.
    fn join(self, other: Self) -> Self
        ensures { result ≡ meaning.joins self other };

    /// Whether this cost is at most the other.
    // Not by `Ord`: a measure's order is its own, and `Ord` would ask for a `cmp` beside it.
    fn at_most(self, other: Self) -> bool
        ensures { result ≡ meaning.at_most self other };

    ghost order_is_total: { (a b : Self) → (meaning.at_most a b ≡ true) ⊎ (meaning.at_most b a ≡ true) };

    ghost order_is_transitive: { (a b c : Self) → meaning.at_most a b ≡ true → meaning.at_most b c ≡ true → meaning.at_most a c ≡ true };

    ghost each_at_most_the_other_is_equal: { (a b : Self) → meaning.at_most a b ≡ true → meaning.at_most b a ≡ true → a ≡ b };

    ghost joining_is_commutative: { (a b : Self) → meaning.joins a b ≡ meaning.joins b a };

    ghost joining_is_associative: { (a b c : Self) → meaning.joins (meaning.joins a b) c ≡ meaning.joins a (meaning.joins b c) };

    ghost joining_neutral_alters_nothing: { (a : Self) → meaning.joins a meaning.neutral ≡ a };

    ghost joined_is_at_least_each_part: { (a b : Self) → (meaning.at_most a (meaning.joins a b) ≡ true) × (meaning.at_most b (meaning.joins a b) ≡ true) };
}
