//! Small sets of decisions and of values, a bit for each.
//! Two types: one generic one, that counts from 0 or from 1 in a word of either size, shares four methods and is
//! longer.
#![tactic(auto)]

ghost use Rattle.sets.specs.Shown.{SetsShown};

mod decision_set;
mod first_bits;
mod value_set;

pub use decision_set::DecisionSet;
pub use value_set::ValueSet;

/// Small sets by their bits: which decisions and values are in them, and what is found in them.
#[tactic(auto, using(crate::proofs::SetsShown::sets_shown))]
pub fn small_sets()
    ensures { SetsShown }
{}
