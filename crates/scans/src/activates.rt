//! What activate rules make active.
ghost use Rattle.std.specs.Prelude.{◌≡◌, ◌&&◌, ◌==◌, find};
ghost use Rattle.std.specs.Option.{option_map};
ghost use Rattle.account.specs.Steps.{enabled_by};
ghost use Rattle.rules.specs.Conditions.{from_bytes, met};
ghost use Rattle.scans.specs.Known.{Known};
ghost use Rattle.sets.specs.Members.{members};

use crate::names::named;
use rules::Row;
use sets::DecisionSet;

/// The first row with this target that a plan meets.
fn first_activating<'a>(rows: &'a [Row], plan: &[u8], decision: u8) -> Option<&'a Row>
    ensures { option_map (λ x. x.now) result ≡ find (λ x. decision == x.target && met (from_bytes plan.now) x) rows.now }
{
    rows.iter()
        .find(|row| decision == row.target && row.met(plan))
}

/// The decisions in the condition of the first row with this target that a plan meets.
pub fn enabler(rows: &[Row], plan: &[u8], decision: u8) -> DecisionSet
    requires { Known rows.now }
    ensures { members result ≡ enabled_by rows.now (from_bytes plan.now) decision }
{
    first_activating(rows, plan, decision).map_or(DecisionSet::empty(), named)
}
