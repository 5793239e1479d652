//! The checks of a rule's parts, and the row made of them.
ghost use Rattle.std.specs.Prelude.{◌≡◌, ◌-◌, ◌≤◌, ◌++◌, length, replicate};
ghost use Rattle.rules.specs.Compose.{ascends, blank, compose_refusal, composed};
ghost use Rattle.rules.specs.Refusals.{as_result};

use crate::padding::padded;
use crate::{Kind, Literal, MOST_PAIRS, Refusal, Row};
use measure::Price;

/// The most cents that a price rule may state.
const MOST_CENTS: u32 = 1_000_000_000;

/// Whether the decisions of the pairs strictly ascend.
fn ascend(pairs: &[Literal]) -> bool
    ensures { result ≡ ascends pairs.now }
{
    pairs.is_sorted_by(|pair, next| pair.decision < next.decision)
}

/// Refuses parts that make no rule.
pub fn check(kind: Kind, pairs: &[Literal], price: Price) -> Result<(), Refusal>
    ensures { result ≡ as_result (compose_refusal kind pairs.now price) }
{
    if !(1..=MOST_PAIRS).contains(&pairs.len()) {
        return Err(Refusal::PairCount);
    }
    if !ascend(pairs) {
        return Err(Refusal::NotAscending);
    }
    if kind.is_price() && price.cents > MOST_CENTS {
        return Err(Refusal::CentsTooLarge);
    }
    Ok(())
}

/// The row of these parts; a target or a price that the kind lacks is 0.
pub fn row_of(kind: Kind, pairs: &[Literal], target: u8, price: Price) -> Row
    requires { length pairs.now ≤ 4 }
    ensures { result ≡ composed kind pairs.now target price }
{
    // A cast: there are four pairs at most, and a `try_from` would say a failure that there is not.
    Row {
        kind,
        count: pairs.len() as u8,
        pairs: padded(pairs, Literal::default()),
        target: if kind.is_activate() { target } else { 0 },
        price: if kind.is_price() {
            price
        } else {
            Price::default()
        },
    }
}
