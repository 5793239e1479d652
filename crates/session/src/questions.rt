//! What a planner is asked, each question printed with its answer.
use crate::shown::{Held, Members};
use calling::Calls;
use measure::Measure;
use showing::Answer;
use std::fmt::Display;
use std::io;

/// Asks for the best with a buffer.
// Other words than the edges', and both are to stay.
pub fn best<M: Measure + Display>(
    calls: &Calls<'_, impl Print, M>,
    buffer: &mut [u8],
) -> io::Result<()> {
    let answer = calls.planner.best(buffer);
    match answer {
        Ok((state, Some(cost))) => {
            let held = Held {
                state,
                plan: buffer,
                cost,
            };
            println!(calls.rt; "best: {held}")
        }
        Ok((state, None)) => println!(calls.rt; "best: {state}, none"),
        Err(refusal) => println!(calls.rt; "best: {refusal}"),
    }
}

/// Asks for the exclusion of a value, and prints it if there is one.
// Other words than the edges', and both are to stay.
fn exclusion<M: Measure>(
    calls: &Calls<'_, impl Print, M>,
    decision: u8,
    value: u8,
) -> io::Result<()> {
    match calls.planner.exclusion(decision, value) {
        Ok(Some((reason, resting))) => {
            let by = Members(reason);
            let mark = if resting { " resting" } else { "" };
            println!(calls.rt; "  {decision}={value} by {by}{mark}")
        }
        Ok(None) => Ok(()),
        Err(refusal) => println!(calls.rt; "  {decision}={value}: {refusal}"),
    }
}

/// Asks for every exclusion, and then how many values each decision has left.
pub fn exclusions<M: Measure>(calls: &Calls<'_, impl Print, M>) -> io::Result<()> {
    println!(calls.rt; "exclusions:")?;
    for (decision, held) in (0..64).zip(calls.planner.decisions()) {
        for value in 1..=held.size {
            exclusion(calls, decision, value)?;
        }
    }
    // Other spaces than the edges', and both are to stay.
    for (decision, _) in (0..64).zip(calls.planner.decisions()) {
        println!(calls.rt;
            "  unexcluded of {decision}: {}",
            Answer(calls.planner.unexcluded(decision))
        )?;
    }
    Ok(())
}
