//! The planner: rules in, the cheapest lawful plan out, by dynamic backtracking with branch and bound.
#![tactic(auto)]

mod best;
mod book;
mod pick;
mod planner;
mod reaching;
mod trials;
mod weighing;

pub use planner::Planner;
