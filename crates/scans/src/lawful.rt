//! Whether a plan is lawful.
ghost use Rattle.std.specs.Prelude.{◌≡◌, ◌≤◌, List, length};
ghost use Rattle.rules.specs.Conditions.{from_bytes};
ghost use Rattle.rules.specs.Plans.{is_lawful, meets_none};
ghost use Rattle.rules.specs.declared.row.Row.{Row};

use crate::forbids::first_met;
use rules::{Decision, EachRow, Row, check_choices};

/// Whether a plan meets none of these rows.
fn meets_none(rows: &[Row], plan: &[u8]) -> bool
    ensures { result ≡ meets_none rows.now (from_bytes plan.now) }
{
    first_met(rows, plan).is_none()
}

/// Whether a plan, a byte for each decision, is lawful: it chooses exactly the active decisions, each in its range, and
/// meets no forbid rule.
// Both lengths are asked for: no type of a slice keeps its length.
pub fn is_lawful(decisions: &[Decision], forbids: &[Row], activates: &[Row], plan: &[u8]) -> bool
    requires few { length decisions.now ≤ 64 }
    requires short { length plan.now ≤ 64 }
    ensures { (prices : List Row) → result ≡ is_lawful (record { decisions = decisions.now; forbids = forbids.now; activates = activates.now; prices = prices }) (from_bytes plan.now) }
{
    check_choices::<EachRow>(decisions, activates, plan).is_ok() && meets_none(forbids, plan)
}
