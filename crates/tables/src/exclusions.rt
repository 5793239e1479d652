//! The excluded values of every decision.
ghost use Rattle.std.specs.Prelude.{◌≡◌, ◌<◌, ◌≤◌, not, ◌&&◌, ◌||◌, if◌then◌else◌, Some, None, ◌==◌, nat_eq, nat_lt};
ghost use Rattle.account.specs.Accounts.{either, empty_below};
ghost use Rattle.account.specs.Calls.{count_free};
ghost use Rattle.account.specs.Changes.{keep_if};
ghost use Rattle.account.specs.Steps.{any_rests, is_free, reason_of, reasons, rests_on, smallest_free};
ghost use Rattle.sets.specs.Members.{members, values};
ghost use Rattle.tables.specs.Excluded.{as_exclusion, cell_of, exclusions_of, spared, unless_meets};

use crate::{Choice, Domain};
use rules::MOST_DECISIONS;
use sets::{DecisionSet, ValueSet};

/// For each of 64 decisions its excluded values, which of them rest on the best, and the reason of each: that of value
/// `v` of decision `d` stands at `16 * d + v - 1`, as the bits of a set of decisions.
// Three arrays side by side: sets of 16 bits and one table of words of 64 bits are the form that is wanted here.
#[derive(Drop)]
pub struct Exclusions {
    excluded: [ValueSet; MOST_DECISIONS],
    resting: [ValueSet; MOST_DECISIONS],
    reasons: [u64; 1024],
}

// Casts in this file: indices by `usize::from` were tried, and the proofs of the calls did not close.

/// Which exclusions stay: those whose reason has no barred decision, and unless `resting` only those that do not rest
/// on the best.
#[derive(Clone, Copy)]
struct Sparing {
    barred: DecisionSet,
    resting: bool,
}

impl Sparing {
    /// Whether an exclusion stays.
    fn spares(self, reason: DecisionSet, rests: bool) -> bool
        ensures { result ≡ spared (members self.barred) self.resting (record { reason = members reason; rests = rests }) }
    {
        !reason.meets(self.barred) && (self.resting || !rests)
    }
}

/// Where the reason of a value stands.
// By two numbers: a `Choice` made at each look-up misses the bar of speed, by a twentieth of a step.
fn cell(d: u8, v: u8) -> usize
    requires known { d < 64 }
    requires low { 1 ≤ v }
    requires high { v ≤ 16 }
    ensures value { result ≡ cell_of d v }
    ensures within { result < 1024 }
{
    16 * (d as usize) + (v as usize - 1)
}

/// A set of values with a chosen one in it or out of it.
fn marked(set: ValueSet, choice: Choice, mark: bool) -> ValueSet
    ensures { values result ≡ (λ x. (if nat_eq x choice.value then mark else values set x)) }
{
    if mark {
        set.with(choice.value)
    } else {
        set.without(choice.value)
    }
}

impl Exclusions {
    /// No exclusion.
    pub fn new() -> Exclusions
        ensures { exclusions_of result ≡ (λ d v. None) }
    {
        Exclusions {
            excluded: [ValueSet::empty(); MOST_DECISIONS],
            resting: [ValueSet::empty(); MOST_DECISIONS],
            reasons: [0; 1024],
        }
    }

    /// Takes all exclusions out.
    pub fn clear(&mut self)
        ensures { exclusions_of self.new ≡ (λ d v. None) }
    {
        self.excluded = [ValueSet::empty(); MOST_DECISIONS];
    }

    /// The reason of an excluded value, and whether it rests on the best.
    // A pair: an exclusion is wanted in this form, its reason with its mark.
    pub fn get(&self, d: u8, v: u8) -> Option<(DecisionSet, bool)>
        ensures { as_exclusion result ≡ exclusions_of self.now d v }
    {
        // By `if`: with `then` the closure is as long, and asks again for what the test has just shown.
        if d < 64 && self.excluded[d as usize].has(v) {
            let reason = DecisionSet {
                bits: self.reasons[cell(d, v)],
            };
            Some((reason, self.resting[d as usize].has(v)))
        } else {
            None
        }
    }

    /// Excludes a choice, in place of any exclusion that it has.
    // Reason and mark, as `get` answers them.
    pub fn put(&mut self, choice: Choice, reason: DecisionSet, rests: bool)
        ensures { exclusions_of self.new ≡ (λ x w. (if nat_eq x choice.decision && w == choice.value then Some (record { reason = members reason; rests = rests }) else exclusions_of self.old x w)) }
    {
        let at = choice.decision as usize;
        self.excluded[at] = self.excluded[at].with(choice.value);
        self.resting[at] = marked(self.resting[at], choice, rests);
        self.reasons[cell(choice.decision, choice.value)] = reason.bits;
    }

    /// The smallest of a domain's values that is not excluded.
    pub fn smallest_free(&self, domain: Domain) -> Option<u8>
        ensures { result ≡ smallest_free (exclusions_of self.now domain.decision) domain.size }
    {
        self.excluded[domain.decision as usize].smallest_outside(domain.size)
    }

    /// How many of a domain's values are not excluded.
    pub fn count_free(&self, domain: Domain) -> u8
        ensures { result ≡ count_free (exclusions_of self.now domain.decision) domain.size }
    {
        self.excluded[domain.decision as usize].count_outside(domain.size)
    }

    /// All reasons of a domain's values.
    pub fn reasons_of(&self, domain: Domain) -> DecisionSet
        ensures { members result ≡ reasons (exclusions_of self.now domain.decision) domain.size }
    {
        // `1..=size` was tried: what such a range gives is not known to a chain's proof.
        (1..domain.size + 1).fold(
            DecisionSet::empty(),
            |all, v| self.with_reason(all, domain.decision, v),
        )
    }

    /// Whether an exclusion of a domain's values rests on the best.
    pub fn any_rests(&self, domain: Domain) -> bool
        ensures { result ≡ any_rests (exclusions_of self.now domain.decision) domain.size }
    {
        (1..domain.size + 1).any(|v| self.rests(domain.decision, v))
    }

    /// A set with the decisions of a value's reason, if it is excluded.
    fn with_reason(&self, all: DecisionSet, d: u8, v: u8) -> DecisionSet
        ensures { members result ≡ either (members all) (reason_of (exclusions_of self.now d v)) }
    {
        self.get(d, v).map_or(all, |(reason, _)| all.union(reason))
    }

    /// Whether a value is excluded by what rests on the best.
    fn rests(&self, d: u8, v: u8) -> bool
        ensures { result ≡ rests_on (exclusions_of self.now d v) }
    {
        self.get(d, v).is_some_and(|(_, rests)| rests)
    }

    /// Takes every exclusion out whose reason has a decision that left.
    pub fn forget(&mut self, left: DecisionSet)
        ensures { exclusions_of self.new ≡ (λ d v. unless_meets (members left) (exclusions_of self.old d v)) }
    {
        self.retain(Sparing {
            barred: left,
            resting: true,
        });
    }

    /// Takes every exclusion out whose reason has one of the first `count` decisions, and unless `resting` those that
    /// rest on the best.
    // A flag: with a `Sparing` in its place callers could bar other decisions than the first.
    pub fn keep_empty(&mut self, count: u8, resting: bool)
        requires { count ≤ 64 }
        ensures { exclusions_of self.new ≡ (λ d v. keep_if (λ e. empty_below e.reason count && (resting || not e.rests)) (exclusions_of self.old d v)) }
    {
        let barred = DecisionSet::first(count);
        self.retain(Sparing { barred, resting });
    }

    /// Takes every exclusion out that is not spared.
    fn retain(&mut self, sparing: Sparing)
        ensures { exclusions_of self.new ≡ (λ d v. keep_if (spared (members sparing.barred) sparing.resting) (exclusions_of self.old d v)) }
    {
        // By number: `spared_values` reads all three arrays, so none of them can be lent for writing meanwhile.
        for d in 0..64u8 {
            let at = d as usize;
            // By its bits, so that a decision with nothing excluded is passed by at once.
            if self.excluded[at].bits != 0 {
                self.excluded[at] = self.spared_values(d, sparing);
            }
        }
    }

    /// The excluded values of a decision that are spared.
    // Apart from the loop over decisions: put into it, it makes the turns of those with nothing excluded slow.
    #[inline(never)]
    fn spared_values(&self, d: u8, sparing: Sparing) -> ValueSet
        ensures { values result ≡ (λ v. not (is_free (keep_if (spared (members sparing.barred) sparing.resting) (exclusions_of self.now d v)))) }
    {
        // By a loop, which LLVM unrolls: a chain of `filter` and `fold` misses the bar of speed, by a thirtieth.
        let mut stays = ValueSet::empty();
        for v in 1..17u8 {
            if self.spares(d, v, sparing) {
                stays = stays.with(v);
            }
        }
        stays
    }

    /// Whether a value is excluded and spared.
    fn spares(&self, d: u8, v: u8, sparing: Sparing) -> bool
        ensures { result ≡ not (is_free (keep_if (spared (members sparing.barred) sparing.resting) (exclusions_of self.now d v))) }
    {
        self.get(d, v)
            .is_some_and(|(reason, rests)| sparing.spares(reason, rests))
    }
}
