//! What a table holds of a rule.
ghost use Rattle.std.specs.Prelude.{◌≡◌};
ghost use Rattle.rules.specs.Compose.{is_forbid, is_activate, is_price};
ghost use Rattle.rules.specs.Conditions.{condition, meets, met, from_bytes};

use crate::{Literal, MOST_PAIRS};
use measure::Price;

/// The kinds of rule.
#[derive(Clone, Copy, Debug, Default, PartialEq, Eq)]
pub enum Kind {
    /// Its condition must not be met.
    #[default]
    Forbid,
    /// Its target is active when its condition is met.
    Activate,
    /// Its price is paid when its condition is met.
    Price,
}

/// A plain copy of a rule. Its condition is its first `count` pairs.
// A count beside four places, and 0 for a target or a price that the kind lacks: a row is wanted in this form, and an
// `ArrayVec` would be no plain copy.
#[derive(Clone, Copy, Debug, Default, PartialEq, Eq)]
pub struct Row {
    pub kind: Kind,
    pub count: u8,
    pub pairs: [Literal; MOST_PAIRS],
    pub target: u8,
    pub price: Price,
}

// Three calls: the definition that each meets has a name of its own.
impl Kind {
    /// Whether this is the kind of forbid rules.
    pub fn is_forbid(self) -> bool
        ensures { result ≡ is_forbid self }
    {
        self == Kind::Forbid
    }

    /// Whether this is the kind of activate rules.
    pub fn is_activate(self) -> bool
        ensures { result ≡ is_activate self }
    {
        self == Kind::Activate
    }

    /// Whether this is the kind of price rules.
    pub fn is_price(self) -> bool
        ensures { result ≡ is_price self }
    {
        self == Kind::Price
    }
}

impl Row {
    /// The pairs of the row's condition.
    pub fn condition(&self) -> &[Literal]
        ensures { result.now ≡ condition self.now }
    {
        let count = usize::from(self.count).min(MOST_PAIRS);
        &self.pairs[0..count]
    }

    /// Whether a plan, a byte for each decision, meets the row's condition.
    pub fn met(&self, plan: &[u8]) -> bool
        ensures { result ≡ met (from_bytes plan.now) self.now }
    {
        self.condition().iter().all(|pair| pair.held_by(plan))
    }
}
