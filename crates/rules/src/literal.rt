//! The pairs of a condition.
ghost use Rattle.std.specs.Prelude.{◌≡◌};
ghost use Rattle.rules.specs.Conditions.{has, from_bytes};

/// A pair, written `2=3`: a decision, counted from 0, and one of its values, counted from 1.
#[derive(Clone, Copy, Debug, Default, PartialEq, Eq)]
pub struct Literal {
    pub decision: u8,
    pub value: u8,
}

impl Literal {
    /// Whether a plan, a byte for each decision, has this pair.
    pub fn held_by(&self, plan: &[u8]) -> bool
        ensures { result ≡ has (from_bytes plan.now) self.now }
    {
        0 < self.value && value_of(plan, self.decision) == self.value
    }
}

/// The value that a plan, a byte for each decision, gives a decision; 0 past its end.
pub fn value_of(plan: &[u8], decision: u8) -> u8
    ensures { result ≡ from_bytes plan.now decision }
{
    // 0, and no `Option`: in a plan 0 is what a decision has that is not chosen, and past its end none is.
    plan.get(usize::from(decision)).copied().unwrap_or(0)
}
