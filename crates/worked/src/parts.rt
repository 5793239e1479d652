//! Rules of one kind each, made of their parts.
ghost use Rattle.std.specs.Prelude.{◌≡◌, [], ◌∷◌};
ghost use Rattle.rules.specs.Compose.{free};
ghost use Rattle.rules.specs.declared.row.Kind.TheVariants.{Forbid, Activate, Price as Priced};
ghost use Rattle.worked.specs.Composes.{Composes};

use measure::Price;
use rules::{Kind, Literal, Refusal, Rule};

/// The pair of a decision and one of its values.
pub fn pair(decision: u8, value: u8) -> Literal
    ensures { result ≡ record { decision = decision; value = value } }
{
    Literal { decision, value }
}

/// The rule that forbids these pairs together.
pub fn forbid(pairs: &[Literal]) -> Result<Rule, Refusal>
    ensures { Composes Forbid pairs.now 0 free result }
{
    Rule::of(Kind::Forbid, pairs, 0, Price::default())
}

/// The rule that this pair activates a decision.
pub fn activate(target: u8, by: Literal) -> Result<Rule, Refusal>
    ensures { Composes Activate (by ∷ []) target free result }
{
    Rule::of(Kind::Activate, &[by], target, Price::default())
}

/// The rule that this pair has a price.
pub fn charge(pair: Literal, tier: u8, cents: u32) -> Result<Rule, Refusal>
    ensures { Composes Priced (pair ∷ []) 0 (record { tier = tier; cents = cents }) result }
{
    Rule::of(Kind::Price, &[pair], 0, Price { tier, cents })
}
