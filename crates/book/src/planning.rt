//! Planning a book from its text to the text of its plan.
ghost use Rattle.std.specs.Prelude.{◌≡◌, ◌≤◌, length};
ghost use Rattle.measure.specs.Supplied.{cents, pair_of, tier};
ghost use Rattle.planner.specs.Planners.{account_of};
ghost use Rattle.rendering.specs.Fills.{counted, filled};
ghost use Rattle.book.specs.Loads.{loaded};
ghost use Rattle.book.specs.Outcomes.{after_runs, plan_text, planned_by};

use crate::{OUTCOME_ROOM, load, write_fault, write_outcome};
use measure::TierThenCents;
use planner::Planner;
use rules::Refusal;

/// How many runs planning a book makes.
const RUNS: u32 = 100;

/// The steps of each run, fewer than a run may be given.
const STEPS: u32 = 100_000;

/// Makes the runs that planning a book makes.
fn run_long(planner: &mut Planner<TierThenCents>)
    ensures { account_of planner.new ≡ after_runs (pair_of tier cents) 100 100000 (account_of planner.old) }
{
    // `made` has its name for the proof, whose invariant counts by it.
    for made in 0..RUNS {
        // Never refused, as proved; what it answers is not wanted.
        planner.run(STEPS).unwrap();
    }
}

/// Loads a book, makes 100 runs of up to 100,000 steps, and writes the text of the outcome or of the fault. Answers the
/// byte count; later bytes stay. Refuses a buffer that is too short, as `OUTCOME_ROOM` bytes never are; it then stays as
/// it was, and the planner has been loaded and run by then.
pub fn plan_book(
    planner: &mut Planner<TierThenCents>,
    text: &[u8],
    buffer: &mut [u8],
) -> Result<usize, Refusal>
    ensures value { result ≡ counted (plan_text (pair_of tier cents) text.now) buffer.old }
    ensures after { buffer.new ≡ filled (plan_text (pair_of tier cents) text.now) buffer.old }
    ensures short { length (plan_text (pair_of tier cents) text.now) ≤ OUTCOME_ROOM }
    ensures planned { account_of planner.new ≡ planned_by (pair_of tier cents) (loaded (pair_of tier cents) text.now) }
{
    match load(planner, text) {
        Ok(()) => {
            run_long(planner);
            write_outcome(planner, buffer)
        }
        Err(fault) => write_fault(fault, buffer),
    }
}
