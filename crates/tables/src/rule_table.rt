//! The rules of one kind.
ghost use Rattle.std.specs.Prelude.{◌≡◌, ◌≤◌, true, take};
ghost use Rattle.tables.specs.Shapes.{all_shaped};

use rules::{MOST_RULES, Row};

mod rows;

/// Up to 256 rules as plain rows, in place order: the first `count` are in use.
// A count beside the array: an `ArrayVec` writes a blank over each row that it lets go of, so that opening a planner
// would take time for every rule that it held.
#[derive(Drop)]
pub struct RuleTable {
    rows: [Row; MOST_RULES],
    count: usize,
    ghost few: { count ≤ 256 },
    ghost shapes: { all_shaped (take count rows) ≡ true },
}
