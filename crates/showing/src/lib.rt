//! What the programs print of planners, as text.
#![tactic(auto)]

mod answer;
mod spaced;
mod trouble;

pub use answer::{Answer, done};
pub use spaced::Spaced;
pub use trouble::Trouble;
