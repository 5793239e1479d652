//! The decisions that a rule's condition names.
ghost use Rattle.std.specs.Prelude.{◌≡◌, true};
ghost use Rattle.rules.specs.Conditions.{condition, names};
ghost use Rattle.rules.specs.Judging.{known_decisions};
ghost use Rattle.sets.specs.Members.{members};

use rules::Row;
use sets::DecisionSet;

/// The decisions that a row's condition names.
pub fn named(row: &Row) -> DecisionSet
    requires { known_decisions 64 (condition row.now) ≡ true }
    ensures { members result ≡ names (condition row.now) }
{
    row.condition()
        .iter()
        .fold(DecisionSet::empty(), |set, pair| set.with(pair.decision))
}
