//! The first rule that a plan meets.
ghost use Rattle.std.specs.Prelude.{◌≡◌};
ghost use Rattle.std.specs.Option.{option_map};
ghost use Rattle.account.specs.Steps.{first_met};
ghost use Rattle.rules.specs.Conditions.{from_bytes};

use rules::Row;

/// The first row, in place order, whose condition a plan, a byte for each decision, meets.
pub fn first_met<'a>(rows: &'a [Row], plan: &[u8]) -> Option<&'a Row>
    ensures { option_map (λ x. x.now) result ≡ first_met rows.now (from_bytes plan.now) }
{
    // Labelled loops, as this scan is to be written.
    'search: {
        'rows: for row in rows {
            let pairs = row.condition();
            'pairs: for pair in pairs {
                if !pair.held_by(plan) {
                    continue 'rows;
                }
            }
            break 'search Some(row);
        }
        None
    }
}
