//! The scans over rules that the search makes.
#![tactic(auto)]

mod activates;
mod forbids;
mod lawful;
mod names;
mod prices;

pub use activates::enabler;
pub use forbids::first_met;
pub use lawful::is_lawful;
pub use names::named;
pub use prices::SuffixCosts;
