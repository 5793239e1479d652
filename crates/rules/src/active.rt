//! The active decisions of a plan.
ghost use Rattle.std.specs.Prelude.{◌≡◌, ℕ, ◌<◌, ◌≤◌, ◌&&◌, length, filter};
ghost use Rattle.rules.specs.Conditions.{from_bytes, met};
ghost use Rattle.rules.specs.Plans.{enables, on_at, rounds, within};
ghost use Rattle.sets.specs.Members.{members};

use crate::{Counting, Decision, MOST_DECISIONS, Row, value_of};
use sets::DecisionSet;
use std::array;

/// The decisions that are marked on.
fn marked(decisions: &[Decision]) -> DecisionSet
    requires { length decisions.now ≤ 64 }
    ensures { members result ≡ on_at decisions.now }
{
    // `zip` with bytes, since `enumerate` counts in `usize`; so it is in `check_each`.
    (0..64u8)
        .zip(decisions)
        .filter(|(_, decision)| decision.on)
        .fold(DecisionSet::empty(), |set, (number, _)| set.with(number))
}

/// The plan's choice for a decision if it is in a set, else 0.
fn choice(plan: &[u8], set: DecisionSet, decision: u8) -> u8
    ensures { result ≡ within (members set) (from_bytes plan.now) decision }
{
    // By 0 for none: that is how a plan's bytes say it.
    if set.has(decision) {
        value_of(plan, decision)
    } else {
        0
    }
}

/// The plan's choices for the decisions of a set.
fn choices(plan: &[u8], set: DecisionSet) -> [u8; MOST_DECISIONS]
    ensures { from_bytes result ≡ within (members set) (from_bytes plan.now) }
{
    // A cast: `from_fn` counts in `usize`, and a `try_from` here would say a failure that there is not.
    array::from_fn(|decision| choice(plan, set, decision as u8))
}

/// Whether a row counts, and a plan meets it.
fn fires<C: Counting>(row: &Row, plan: &[u8]) -> bool
    ensures { result ≡ (C.counted row.now && met (from_bytes plan.now) row.now) }
{
    C::counts(row) && row.met(plan)
}

/// The targets, below 64, of the rows that count and that a plan meets.
pub fn enabled<C: Counting>(rows: &[Row], plan: &[u8]) -> DecisionSet
    ensures { (d : ℕ) → d < 64 → members result d ≡ enables (filter C.counted rows.now) (from_bytes plan.now) d }
{
    // By a loop: a chain of `filter` and `fold` misses the bar of speed, by a thirtieth of a step.
    let mut targets = DecisionSet::empty();
    for row in rows {
        if fires::<C>(row, plan) {
            targets = targets.with(row.target);
        }
    }
    targets
}

/// The active decisions: those marked on, and in as many rounds as there are decisions what their choices enable.
pub fn active_decisions<C: Counting>(
    decisions: &[Decision],
    rows: &[Row],
    plan: &[u8],
) -> DecisionSet
    requires few { length decisions.now ≤ 64 }
    requires short { length plan.now ≤ 64 }
    ensures { (d : ℕ) → d < 64 → members result d ≡ rounds (length decisions.now) (filter C.counted rows.now) (from_bytes plan.now) (on_at decisions.now) d }
{
    let mut active = marked(decisions);
    for _ in 0..decisions.len() {
        let chosen = choices(plan, active);
        active = active.union(enabled::<C>(rows, &chosen));
    }
    active
}
