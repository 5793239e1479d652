//! The entries of a trail.
use sets::DecisionSet;

/// A choice on the trail: a decision, its value, and the decisions that made it active.
// Not by a `Choice`: an `ArrayVec` fills its free places with defaults, and a choice, of value 1 or more, derives none.
#[derive(Clone, Copy, Debug, Default, PartialEq, Eq)]
pub struct Entry {
    pub decision: u8,
    pub value: u8,
    pub support: DecisionSet,
}
