//! The tables that a planner searches with: its rules, its trail, and what it has excluded.
#![tactic(auto)]

mod domain;
mod entry;
mod exclusions;
mod retreat;
mod rule_table;
mod shaped_row;
mod trail;

pub use domain::{Choice, Domain};
pub use entry::Entry;
pub use exclusions::Exclusions;
pub use retreat::Retreat;
pub use rule_table::RuleTable;
pub use shaped_row::ShapedRow;
pub use trail::Trail;
