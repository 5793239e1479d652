//! The decisions and rules that a planner holds.
ghost use Rattle.std.specs.Prelude.{◌≡◌, ◌≤◌, true, length};
ghost use Rattle.rules.specs.Judging.{sized};

use arrayvec::ArrayVec;
use rules::{Decision, MOST_DECISIONS};
use tables::RuleTable;

mod holding;

/// Up to 64 decisions of 1 to 16 values, and the rules of each kind.
#[derive(Drop)]
pub struct Book {
    decisions: ArrayVec<Decision, MOST_DECISIONS>,
    forbids: RuleTable,
    activates: RuleTable,
    prices: RuleTable,
    // What an `ArrayVec` bounds is not seen by proofs outside it.
    ghost few: { length decisions.items ≤ 64 },
    ghost sizes: { sized decisions.items ≡ true },
}
