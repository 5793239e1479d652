//! What a retreat answers.
use crate::Entry;
use sets::DecisionSet;

/// The latest entry that was blamed, and all decisions that left the trail.
#[derive(Clone, Copy)]
pub struct Retreat {
    pub culprit: Entry,
    pub left: DecisionSet,
}
