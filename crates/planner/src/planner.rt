//! The planner, and what its type keeps.
use crate::best::Best;
use crate::book::Book;
use account::State;
use rules::MOST_DECISIONS;
use scans::SuffixCosts;
use tables::{Exclusions, Trail};

mod calls;
mod changes;
mod steps;

/// A planner of fixed size over the costs of a measure.
#[derive(Drop)]
pub struct Planner<M> {
    book: Book,
    ranks: [u8; MOST_DECISIONS],
    trail: Trail,
    exclusions: Exclusions,
    best: Option<Best<M>>,
    state: State,
    /// What the price rules from each place on cost the plan that is looked at.
    costs: SuffixCosts<M>,
}
