//! Running a book of bytes.
ghost use Rattle.std.specs.Prelude.{◌≡◌};
ghost use Rattle.planner.specs.Planners.{account_of};
ghost use Rattle.engine.specs.Answered.{answered, left_or, on_ok, planned};

use crate::fault::Fault;
use crate::loading::read_book;
use crate::outcome::Outcome;
use account::State;
use measure::Cents;
use planner::Planner;

/// Makes a run of a planner, and writes the best's plan.
fn run_planner(planner: &mut Planner<Cents>, budget: u32, plan: &mut [u8]) -> Result<Outcome, Fault>
    ensures value { result ≡ on_ok (λ p. p.outcome) (planned (account_of planner.old) budget plan.old) }
    ensures plan { plan.new ≡ left_or plan.old (λ p. p.plan) (planned (account_of planner.old) budget plan.old) }
{
    let (steps, _) = planner.run(budget)?;
    let (state, best) = planner.best(plan)?;
    Ok(Outcome {
        cost: best.map_or(0, |cost| cost.sum),
        steps,
        settled: state == State::Settled,
        held: best.is_some(),
    })
}

/// Reads a book into a planner, makes a run of it, and writes the best's plan.
pub fn run_book(
    planner: &mut Planner<Cents>,
    book: &[u8],
    budget: u32,
    plan: &mut [u8],
) -> Result<Outcome, Fault>
    ensures value { result ≡ on_ok (λ p. p.outcome) (answered book.now budget plan.old) }
    ensures plan { plan.new ≡ left_or plan.old (λ p. p.plan) (answered book.now budget plan.old) }
{
    read_book(planner, book)?;
    run_planner(planner, budget, plan)
}
