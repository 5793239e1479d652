//! The calls that change a planner, each printed with its answer.
#![tactic(auto)]

mod calls;
mod ran;

pub use calls::Calls;
