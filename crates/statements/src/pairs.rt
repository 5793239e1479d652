//! The pairs of a line.
ghost use Rattle.std.specs.Prelude.{◌≤◌};

use rules::Literal;

mod gathering;

/// The first pairs of a line, five at most: five are already too many for a rule. A list with its length beside: a
/// statement is a plain copy, and an `ArrayVec` is none.
#[derive(Clone, Copy)]
pub struct Pairs {
    list: [Literal; 5],
    count: usize,
    ghost few: { count ≤ 5 },
}
