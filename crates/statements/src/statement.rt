//! What a line states.
use crate::Pairs;
use measure::Price;
use rules::{Decision, Kind};

/// The parts of a rule.
#[derive(Clone, Copy)]
pub struct Parts {
    pub kind: Kind,
    pub pairs: Pairs,
    pub target: u8,
    pub price: Price,
}

/// What a line states: the next decision, or a rule.
#[derive(Clone, Copy)]
pub enum Statement {
    Decision(Decision),
    Rule(Parts),
}
