//! What the judging of a plan answers.

/// A law that a plan breaks.
#[derive(Clone, Copy, Debug, PartialEq, Eq)]
pub enum Breach {
    /// This decision is chosen and not active.
    NotActive(u8),
    /// This decision is active and not chosen.
    NotChosen(u8),
    /// This decision has a value past its size.
    OutOfRange(u8),
    /// The forbid rule at this place is met.
    Forbidden(usize),
}

/// A plan is lawful, at a cost, or breaks a law.
pub type Verdict<M> = Result<M, Breach>;
