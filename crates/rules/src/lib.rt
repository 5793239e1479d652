//! Decisions, rules and plans: composing a rule, and judging a plan by the rules.
#![tactic(auto)]

mod active;
mod checks;
mod choices;
mod compose;
mod counting;
mod decision;
mod judging;
mod literal;
mod padding;
mod refusal;
mod row;
mod rule;
mod shown;
#[cfg(test)]
mod tests;
mod verdict;

pub use active::enabled;
pub use checks::{MOST_DECISIONS, MOST_PAIRS, MOST_RULES, MOST_VALUES, check_decisions, check_row};
pub use choices::check_choices;
pub use counting::{ActivateKind, Counting, EachRow};
pub use decision::Decision;
pub use judging::{answers_are_worked_out, judge};
pub use literal::{Literal, value_of};
pub use refusal::{Layer, Refusal};
pub use row::{Kind, Row};
pub use rule::Rule;
pub use verdict::{Breach, Verdict};
