//! What the session prints, as text.
use account::State;
use arrayvec::ArrayVec;
use rules::{Kind, MOST_DECISIONS, Row};
use sets::DecisionSet;
use showing::Spaced;
use std::fmt;

/// A set of decisions, their numbers in braces.
#[derive(Clone, Copy)]
pub struct Members(pub DecisionSet);

impl fmt::Display for Members {
    fn fmt<W: fmt::Write>(&self, f: &mut fmt::Formatter<W>) -> fmt::Result {
        let mut members = ArrayVec::<u8, MOST_DECISIONS>::new();
        members.extend((0..64).filter(|decision| self.0.has(*decision)))?;
        write!(f, "{{{}}}", Spaced(members.as_slice()))
    }
}

/// A best that is held: how planning stands, the plan and its cost.
#[derive(Clone, Copy)]
pub struct Held<'a, M> {
    pub state: State,
    pub plan: &'a [u8],
    pub cost: M,
}

impl<M: fmt::Display> fmt::Display for Held<'_, M> {
    fn fmt<W: fmt::Write>(&self, f: &mut fmt::Formatter<W>) -> fmt::Result {
        // In two: the proof of one `write!` of all three is not found.
        write!(f, "{}, plan {}", self.state, Spaced(self.plan))?;
        write!(f, ", cost {}", self.cost)
    }
}

/// A rule as it is stated: its kind, its pairs, and its target or its price.
#[derive(Clone, Copy)]
pub struct Stated(pub Row);

impl fmt::Display for Stated {
    fn fmt<W: fmt::Write>(&self, f: &mut fmt::Formatter<W>) -> fmt::Result {
        let pairs = Spaced(self.0.condition());
        let Row {
            kind,
            target,
            price,
            ..
        } = self.0;
        match kind {
            Kind::Forbid => write!(f, "forbid {pairs}"),
            Kind::Activate => write!(f, "activate {target} by {pairs}"),
            Kind::Price => write!(f, "price {pairs} ({}, {})", price.tier, price.cents),
        }
    }
}
