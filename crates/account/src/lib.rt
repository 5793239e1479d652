//! The account of a planner's calls, and the law of planning over whole lists of them.
#![tactic(auto)]

ghost use Rattle.account.specs.Consequences.{BoundsShown, Consequences};
ghost use Rattle.account.specs.Law.{LawfulIsTested, Planning};
ghost use Rattle.account.specs.Edges.{EdgesShown};
ghost use Rattle.account.specs.Snapshots.{SnapshotsShown};
ghost use Rattle.account.specs.Worked.{AllShown};

mod state;

use measure::{Cents, Measure};
pub use state::State;

/// The planning law holds for every measure that keeps the laws.
pub fn planning_law<M: Measure>()
    ensures { Planning M.meaning }
{}

/// What follows from the planning law, without the definitions that it has of its own.
pub fn planning_consequences<M: Measure>()
    ensures { Consequences M.meaning }
{
    planning_law::<M>();
}

/// What searches of small books tell of all plans over them.
pub fn worked_bounds()
    ensures { BoundsShown }
{
    planning_law::<Cents>();
}

/// The worked cases come out as they are stated.
pub fn worked_cases()
    ensures { AllShown }
{}

/// Each call refuses at its edges as it is stated.
#[tactic(auto, using(crate::proofs::EdgesShown::edges_shown))]
pub fn edge_cases()
    ensures { EdgesShown }
{}

/// Small books hold what is stated after steps and after each change of rules.
#[tactic(auto, using(crate::proofs::SnapshotsShown::snapshots_shown))]
pub fn snapshots()
    ensures { SnapshotsShown }
{}

/// The test that decides whether a best stays tells lawful plans from the others.
pub fn lawful_is_tested()
    ensures { LawfulIsTested }
{}
