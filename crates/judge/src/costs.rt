//! What a plan costs under each measure, or why it has no cost.
ghost use Rattle.std.specs.Prelude.{◌≡◌, map};
ghost use Rattle.judge.specs.Costed.{Costed};

use measure::{Cents, CentsThenTier, Measure, Tier, TierThenCents};
use rules::{Breach, Refusal};
use std::fmt;
use worked::Book;

/// A lawful plan's cost under each measure.
#[derive(Clone, Copy)]
pub struct Costs {
    cents: Cents,
    tier: Tier,
    tier_first: TierThenCents,
    cents_first: CentsThenTier,
}

/// Why a plan has no cost.
#[derive(Clone, Copy)]
pub enum Fault {
    Unlawful(Breach),
    Refused(Refusal),
}

/// A plan's cost under one measure.
fn cost<M: Measure>(book: &Book, plan: &[u8]) -> Result<M, Fault>
    ensures { Costed M.meaning book.now.decisions (map (λ rule. rule.row) book.now.rules) plan.now result }
{
    rules::judge(&book.decisions, &book.rows(), plan)
        .map_err(Fault::Refused)?
        .map_err(Fault::Unlawful)
}

/// A plan's cost under each measure.
pub fn costs_of(book: &Book, plan: &[u8]) -> Result<Costs, Fault> {
    Ok(Costs {
        cents: cost(book, plan)?,
        tier: cost(book, plan)?,
        tier_first: cost(book, plan)?,
        cents_first: cost(book, plan)?,
    })
}

impl fmt::Display for Costs {
    fn fmt<W: fmt::Write>(&self, f: &mut fmt::Formatter<W>) -> fmt::Result {
        let Costs {
            cents,
            tier,
            tier_first,
            cents_first,
        } = *self;
        write!(f, "{cents} cents  tier {tier}  {tier_first}  {cents_first}")
    }
}

// By hand: a derived text would want one of `Breach`, and only this program prints it.
impl fmt::Display for Fault {
    fn fmt<W: fmt::Write>(&self, f: &mut fmt::Formatter<W>) -> fmt::Result {
        match *self {
            Fault::Unlawful(Breach::NotActive(d)) => write!(
                f,
                "unlawful: decision {d} is chosen and not active"
            ),
            Fault::Unlawful(Breach::NotChosen(d)) => write!(
                f,
                "unlawful: decision {d} is active and not chosen"
            ),
            Fault::Unlawful(Breach::OutOfRange(d)) => write!(
                f,
                "unlawful: the value of decision {d} is out of range"
            ),
            Fault::Unlawful(Breach::Forbidden(k)) => write!(f, "unlawful: forbid rule {k} is met"),
            Fault::Refused(refusal) => write!(f, "refused: {}", refusal.number()),
        }
    }
}
