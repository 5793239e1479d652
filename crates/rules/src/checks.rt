//! The checks of decisions, and of rows beside them.
ghost use Rattle.std.specs.Prelude.{◌≡◌, length};
ghost use Rattle.rules.specs.Judging.{has_size, sized, known_decisions, known_value, known_values, open_refusal, row_refusal, rows_refusal};
ghost use Rattle.rules.specs.Refusals.{as_result};

use crate::{Decision, Literal, Refusal, Row};

/// The most decisions that a book may have.
pub const MOST_DECISIONS: usize = 64;

/// The most rules of one kind that a planner may hold.
pub const MOST_RULES: usize = 256;

/// The most pairs that a rule may have.
pub const MOST_PAIRS: usize = 4;

/// The most values that a decision may have.
pub const MOST_VALUES: u8 = 16;

/// Whether a decision has 1 to 16 values.
fn is_sized(decision: &Decision) -> bool
    ensures { result ≡ has_size decision.now }
{
    (1..=MOST_VALUES).contains(&decision.size)
}

/// Whether every decision has 1 to 16 values.
fn all_sized(decisions: &[Decision]) -> bool
    ensures { result ≡ sized decisions.now }
{
    decisions.iter().all(is_sized)
}

/// Refuses more than 64 decisions, then a size outside 1 to 16.
pub fn check_decisions(decisions: &[Decision]) -> Result<(), Refusal>
    ensures { result ≡ as_result (open_refusal decisions.now) }
{
    if decisions.len() > MOST_DECISIONS {
        return Err(Refusal::TooManyDecisions);
    }
    if !all_sized(decisions) {
        return Err(Refusal::SizeOutOfRange);
    }
    Ok(())
}

/// Whether a pair's value is one of its decision's.
fn value_known(pair: &Literal, decisions: &[Decision]) -> bool
    ensures { result ≡ known_value decisions.now pair.now }
{
    decisions
        .get(usize::from(pair.decision))
        .is_some_and(|decision| (1..=decision.size).contains(&pair.value))
}

/// Whether every pair's decision is one of the first `count`.
fn decisions_known(pairs: &[Literal], count: usize) -> bool
    ensures { result ≡ known_decisions count pairs.now }
{
    pairs.iter().all(|pair| usize::from(pair.decision) < count)
}

/// Whether every pair's value is one of its decision's.
fn values_known(pairs: &[Literal], decisions: &[Decision]) -> bool
    ensures { result ≡ known_values decisions.now pairs.now }
{
    pairs.iter().all(|pair| value_known(pair, decisions))
}

/// Refuses a row that names an unknown decision in a pair or as the target of an activate rule, then an unknown value.
pub fn check_row(decisions: &[Decision], row: &Row) -> Result<(), Refusal>
    ensures { result ≡ as_result (row_refusal decisions.now row.now) }
{
    let count = decisions.len();
    if !decisions_known(row.condition(), count) {
        return Err(Refusal::UnknownDecision);
    }
    if row.kind.is_activate() && usize::from(row.target) >= count {
        return Err(Refusal::UnknownDecision);
    }
    if !values_known(row.condition(), decisions) {
        return Err(Refusal::UnknownValue);
    }
    Ok(())
}

/// Refuses the first row that `check_row` refuses.
pub fn check_rows(decisions: &[Decision], rows: &[Row]) -> Result<(), Refusal>
    ensures { result ≡ as_result (rows_refusal decisions.now rows.now) }
{
    for row in rows {
        check_row(decisions, row)?;
    }
    Ok(())
}
