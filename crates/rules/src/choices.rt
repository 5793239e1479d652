//! Whether a plan chooses as it must.
ghost use Rattle.std.specs.Prelude.{◌≡◌, ◌≤◌, length, filter, take};
ghost use Rattle.rules.specs.Conditions.{from_bytes};
ghost use Rattle.rules.specs.Refusals.{as_result};
ghost use Rattle.rules.specs.Searches.{Chooses, FirstMisfit, misfit};
ghost use Rattle.sets.specs.Members.{members};

use crate::active::active_decisions;
use crate::{Breach, Counting, Decision, MOST_DECISIONS, Row, value_of};
use sets::DecisionSet;

/// Whether a plan that gives a decision this value treats it lawfully; else how not.
fn check_choice(number: u8, size: u8, active: bool, value: u8) -> Result<(), Breach>
    ensures { result ≡ as_result (misfit number size active value) }
{
    if !active && value > 0 {
        return Err(Breach::NotActive(number));
    }
    if active && value == 0 {
        return Err(Breach::NotChosen(number));
    }
    if active && value > size {
        return Err(Breach::OutOfRange(number));
    }
    Ok(())
}

/// Whether a plan chooses just the decisions of a set, each in its range; else how it mistreats the first that it does.
fn check_each(decisions: &[Decision], active: DecisionSet, plan: &[u8]) -> Result<(), Breach>
    requires { length decisions.now ≤ 64 }
    ensures { FirstMisfit decisions.now (members active) (from_bytes plan.now) (length decisions.now) result }
{
    for (number, decision) in (0..64u8).zip(decisions) {
        check_choice(
            number,
            decision.size,
            active.has(number),
            value_of(plan, number),
        )?;
    }
    Ok(())
}

/// Whether a plan chooses just the active decisions, each in its range; else how it mistreats the first that it does.
/// Decisions and bytes past the first 64 are left out.
// 64 decisions at most are asked for by what is called from here alone: no type of a slice keeps its length.
pub fn check_choices<C: Counting>(
    decisions: &[Decision],
    rows: &[Row],
    plan: &[u8],
) -> Result<(), Breach>
    ensures { Chooses (take 64 decisions.now) (filter C.counted rows.now) (take 64 plan.now) result }
{
    let decisions = &decisions[0..decisions.len().min(MOST_DECISIONS)];
    let plan = &plan[0..plan.len().min(MOST_DECISIONS)];
    let active = active_decisions::<C>(decisions, rows, plan);
    check_each(decisions, active, plan)
}
