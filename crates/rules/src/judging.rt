//! The judging of a plan by decisions and rules.
ghost use Rattle.std.specs.Prelude.{◌≡◌, ◌&&◌, length, None, filter, fold, position};
ghost use Rattle.rules.specs.Compose.{is_forbid, is_price};
ghost use Rattle.rules.specs.Conditions.{from_bytes, met};
ghost use Rattle.rules.specs.Judging.{Answered, Judged, book_of, open_refusal, rows_refusal};
ghost use Rattle.rules.specs.Verdicts.{WorkedOut};

use crate::checks::{check_decisions, check_rows};
use crate::{ActivateKind, Breach, Decision, Refusal, Row, Verdict, check_choices};
use measure::Measure;

/// The place of the first forbid rule that a plan meets.
fn first_forbidden(rows: &[Row], plan: &[u8]) -> Option<usize>
    ensures { result ≡ position (met (from_bytes plan.now)) (filter (λ x. is_forbid x.kind) rows.now) }
{
    rows.iter()
        .filter(|row| row.kind.is_forbid())
        .position(|row| row.met(plan))
}

/// Whether a row is a price rule that a plan meets.
fn pays(row: &Row, plan: &[u8]) -> bool
    ensures { result ≡ (is_price row.now.kind && met (from_bytes plan.now) row.now) }
{
    row.kind.is_price() && row.met(plan)
}

/// The cost of a plan: the joined costs of the price rules that it meets.
fn cost_of<M: Measure>(rows: &[Row], plan: &[u8]) -> M
    ensures { result ≡ fold (λ sum x. M.meaning.joins sum (M.meaning.reads x.price)) M.meaning.neutral (filter (λ x. is_price x.kind && met (from_bytes plan.now) x) rows.now) }
{
    rows.iter()
        .filter(|row| pays(row, plan))
        .fold(M::neutral(), |sum, row| sum.join(M::read(row.price)))
}

/// Whether a plan is lawful, and its cost if it is; else the first law that it breaks.
fn verdict<M: Measure>(decisions: &[Decision], rows: &[Row], plan: &[u8]) -> Verdict<M>
    requires accepted { open_refusal decisions.now ≡ None }
    requires known { rows_refusal decisions.now rows.now ≡ None }
    requires exact { length plan.now ≡ length decisions.now }
    ensures { Judged M.meaning (book_of decisions.now rows.now) (from_bytes plan.now) result }
{
    check_choices::<ActivateKind>(decisions, rows, plan)?;
    if let Some(place) = first_forbidden(rows, plan) {
        return Err(Breach::Forbidden(place));
    }
    Ok(cost_of(rows, plan))
}

/// Judges a plan, a byte for each decision: its value, or 0 if it is idle. Refuses more than 64 decisions, then a size
/// outside 1 to 16, then the first row that names an unknown decision or else an unknown value, then a plan of fewer
/// bytes than decisions.
pub fn judge<M: Measure>(
    decisions: &[Decision],
    rows: &[Row],
    plan: &[u8],
) -> Result<Verdict<M>, Refusal>
    ensures { Answered M.meaning decisions.now rows.now plan.now result }
{
    check_decisions(decisions)?;
    check_rows(decisions, rows)?;
    if plan.len() < decisions.len() {
        return Err(Refusal::ShortPlan);
    }
    let plan = &plan[0..decisions.len()];
    Ok(verdict(decisions, rows, plan))
}

/// What `judge` answers can be worked out: it is the one answer that its promise allows.
pub fn answers_are_worked_out<M: Measure>()
    ensures { WorkedOut M.meaning }
{}
