//! The best plan so far.
use rules::MOST_DECISIONS;

/// A lawful plan, a byte for each decision, and its cost.
#[derive(Clone, Copy)]
pub struct Best<M> {
    pub plan: [u8; MOST_DECISIONS],
    pub cost: M,
}
