//! A rule, whose type keeps the shape that every rule has.
ghost use Rattle.std.specs.Prelude.{◌≡◌, ◌≤◌, true, length, Some, None, MatchResult};
ghost use Rattle.rules.specs.Compose.{ascends, compose_refusal, composed, is_exact, new_rule};
ghost use Rattle.rules.specs.Conditions.{condition};
ghost use Rattle.rules.specs.Refusals.{as_result, unless_refused};

use crate::{Kind, Literal, Refusal, Row, compose};
use measure::Price;

/// A rule: one to four pairs in strictly ascending order of decision, and beside them only what its kind has.
// `full` is what the array's type says: the proofs of a rule's parts, which see no type, have it from here.
#[derive(Clone, Copy)]
pub struct Rule {
    row: Row,
    ghost some: { 1 ≤ row.count },
    ghost few: { row.count ≤ 4 },
    ghost full: { length row.pairs ≡ 4 },
    ghost ascending: { ascends (condition row) ≡ true },
    ghost exact: { is_exact row ≡ true },
}

impl Rule {
    /// A new rule, which is the forbid rule `0=1`.
    pub fn new() -> Rule
        ensures { result.row ≡ new_rule }
    {
        let first = Literal {
            decision: 0,
            value: 1,
        };
        Rule {
            row: compose::row_of(Kind::Forbid, &[first], 0, Price::default()),
        }
    }

    /// The rule of a kind with these pairs, this target and this price; a target or a price that the kind lacks is 0.
    /// Refuses if the pairs are not one to four, then if their decisions do not strictly ascend, then if a price
    /// rule's cents are over 1,000,000,000.
    // Four parameters, and no struct of them: `compose` takes them so, and its form is asked for.
    pub fn of(kind: Kind, pairs: &[Literal], target: u8, price: Price) -> Result<Rule, Refusal>
        ensures { MatchResult result (λ rule. (compose_refusal kind pairs.now price ≡ None) × (rule.row ≡ composed kind pairs.now target price)) (λ refusal. compose_refusal kind pairs.now price ≡ Some refusal) }
    {
        compose::check(kind, pairs, price)?;
        Ok(Rule {
            row: compose::row_of(kind, pairs, target, price),
        })
    }

    /// Makes this the rule of a kind with these pairs, this target and this price; a target or a price that the
    /// kind lacks is 0. Refuses if the pairs are not one to four, then if their decisions do not strictly ascend,
    /// then if a price rule's cents are over 1,000,000,000; the rule then stays as it was.
    pub fn compose(
        &mut self,
        kind: Kind,
        pairs: &[Literal],
        target: u8,
        price: Price,
    ) -> Result<(), Refusal>
        ensures value { result ≡ as_result (compose_refusal kind pairs.now price) }
        ensures after { self.new.row ≡ unless_refused (compose_refusal kind pairs.now price) self.old.row (composed kind pairs.now target price) }
    {
        *self = Rule::of(kind, pairs, target, price)?;
        Ok(())
    }

    /// The rule as a plain row.
    pub fn row(&self) -> Row
        ensures { result ≡ self.now.row }
    {
        self.row
    }
}
