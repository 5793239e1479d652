//! What a planner has come to.
ghost use Rattle.std.specs.Prelude.{◌≡◌, ◌≤◌, length, Some};
ghost use Rattle.planner.specs.Planners.{account_of};
ghost use Rattle.rendering.specs.Fills.{counted, filled};
ghost use Rattle.rendering.specs.Texts.{outcome_text};
ghost use Rattle.book.specs.Outcomes.{account_text};

use account::State;
use measure::TierThenCents;
use planner::Planner;
use rendering::{Outcome, Text};
use rules::{MOST_DECISIONS, Refusal};

/// Room for the text of any outcome, and of any fault.
pub const OUTCOME_ROOM: usize = 512;

/// Writes the text of an outcome that holds a best; answers and refuses as `write_outcome`.
// Of its own, since of a cost that is passed by value it is known that its numbers fit their types.
#[tactic(auto, using(crate::proofs::Rooms::best_short))]
fn write_best(
    state: State,
    cost: TierThenCents,
    plan: &[u8],
    buffer: &mut [u8],
) -> Result<usize, Refusal>
    requires { length plan.now ≤ 64 }
    ensures value { result ≡ counted (outcome_text state (Some cost) plan.now) buffer.old }
    ensures after { buffer.new ≡ filled (outcome_text state (Some cost) plan.now) buffer.old }
    ensures short { length (outcome_text state (Some cost) plan.now) ≤ OUTCOME_ROOM }
{
    Outcome::new(state, Some(cost), plan).fill(buffer)
}

/// Writes the text of what a planner has come to: its state, and if a best is held its tier and cents, and the number
/// and value of each active decision, a line each. Answers the byte count; later bytes stay. Refuses a buffer that is
/// too short, as `OUTCOME_ROOM` bytes never are; it then stays as it was.
pub fn write_outcome(planner: &Planner<TierThenCents>, buffer: &mut [u8]) -> Result<usize, Refusal>
    ensures value { result ≡ counted (account_text (account_of planner.now)) buffer.old }
    ensures after { buffer.new ≡ filled (account_text (account_of planner.now)) buffer.old }
    ensures short { length (account_text (account_of planner.now)) ≤ OUTCOME_ROOM }
{
    let mut bytes = [0; MOST_DECISIONS];
    let (state, cost) = planner.best(&mut bytes)?;
    let plan = &bytes[..planner.decisions().len()];
    match cost {
        Some(cost) => write_best(state, cost, plan, buffer),
        None => Outcome::new(state, None, plan).fill(buffer),
    }
}
