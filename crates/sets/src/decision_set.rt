//! Sets of decisions.
ghost use Rattle.std.specs.Prelude.{◌≡◌, min, false, not, ◌&&◌, ◌||◌, ◌==◌, nat_lt};
ghost use Rattle.sets.specs.Members.{members};
ghost use Rattle.sets.specs.Searches.{some_below};

use crate::first_bits::first_bits;

/// A set of the decisions 0 to 63: decision `d` is in it where bit `d` is set.
#[derive(Clone, Copy, Debug, Default, PartialEq, Eq)]
pub struct DecisionSet {
    pub bits: u64,
}

impl DecisionSet {
    /// The set of no decision.
    // Not `default`: `empty` promises that there are no members.
    pub fn empty() -> DecisionSet
        ensures { members result ≡ (λ x. false) }
    {
        DecisionSet { bits: 0 }
    }

    /// The set of the first decisions, so many, of 64 at most.
    pub fn first(count: u8) -> DecisionSet
        ensures { members result ≡ (λ x. nat_lt x (min count 64)) }
    {
        DecisionSet {
            bits: first_bits(count),
        }
    }

    /// Whether a decision is in the set.
    pub fn has(self, d: u8) -> bool
        ensures { result ≡ members self d }
    {
        d < 64 && (self.bits >> d) & 1 == 1
    }

    /// The set with one more decision; a decision from 64 on changes nothing.
    pub fn with(self, d: u8) -> DecisionSet
        ensures { members result ≡ (λ x. members self x || (x == d && nat_lt d 64)) }
    {
        if d < 64 {
            DecisionSet {
                bits: self.bits | (1u64 << d),
            }
        } else {
            self
        }
    }

    /// The set without a decision.
    pub fn without(self, d: u8) -> DecisionSet
        ensures { members result ≡ (λ x. members self x && not (x == d)) }
    {
        if d < 64 {
            DecisionSet {
                bits: self.bits & !(1u64 << d),
            }
        } else {
            self
        }
    }

    /// The decisions that are in one set or the other.
    pub fn union(self, other: DecisionSet) -> DecisionSet
        ensures { members result ≡ (λ x. members self x || members other x) }
    {
        DecisionSet {
            bits: self.bits | other.bits,
        }
    }

    /// Whether some decision is in both sets.
    pub fn meets(self, other: DecisionSet) -> bool
        ensures { result ≡ some_below (λ x. members self x && members other x) 64 }
    {
        self.bits & other.bits != 0
    }

    /// Whether no decision is in the set.
    pub fn is_empty(self) -> bool
        ensures { result ≡ not (some_below (members self) 64) }
    {
        self.bits == 0
    }
}
