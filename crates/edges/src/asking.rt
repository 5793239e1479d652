//! Runs, buffers and questions at their edges.
use calling::Calls;
use measure::Cents;
use showing::{Answer, Spaced, done};
use std::io;

/// Asks for the best with a buffer, and prints what the buffer then holds.
// Other words than the session's, and both are to stay.
fn best(calls: &Calls<'_, impl Print, Cents>, buffer: &mut [u8]) -> io::Result<()> {
    let length = buffer.len();
    let answer = calls.planner.best(buffer);
    let bytes = Spaced(buffer);
    match answer {
        Ok((state, Some(cost))) => {
            println!(calls.rt; "best into {length}: {state}, cost {cost}, [{bytes}]")
        }
        Ok((state, None)) => println!(calls.rt; "best into {length}: {state}, none, [{bytes}]"),
        Err(refusal) => println!(calls.rt; "best into {length}: {refusal}, [{bytes}]"),
    }
}

/// Budgets small and large, from an open planner to a settled one.
pub fn budgets(calls: &mut Calls<'_, impl Print, Cents>) -> io::Result<()> {
    best(calls, &mut [9; 2])?;
    calls.run(0)?;
    calls.run(1_000_001)?;
    calls.run(u32::MAX)?;
    calls.run(1)?;
    calls.run(1_000_000)?;
    calls.run(1_000_000)
}

/// Buffers that are one short, exact and longer.
pub fn buffers(calls: &Calls<'_, impl Print, Cents>) -> io::Result<()> {
    best(calls, &mut [])?;
    best(calls, &mut [9; 1])?;
    best(calls, &mut [9; 2])?;
    best(calls, &mut [9; 4])
}

/// Asks for the exclusion of a value, and prints the answer.
// Other words than the session's, and both are to stay.
fn exclusion(calls: &Calls<'_, impl Print, Cents>, d: u8, value: u8) -> io::Result<()> {
    match calls.planner.exclusion(d, value) {
        Ok(Some((reason, resting))) => {
            let bits = reason.bits;
            println!(calls.rt; "exclusion {d}={value}: reason bits {bits}, resting {resting}")
        }
        Ok(None) => println!(calls.rt; "exclusion {d}={value}: none"),
        Err(refusal) => println!(calls.rt; "exclusion {d}={value}: {refusal}"),
    }
}

/// Asks how many values of a decision are not excluded, and prints the answer.
fn unexcluded(calls: &Calls<'_, impl Print, Cents>, d: u8) -> io::Result<()> {
    println!(calls.rt;
        "unexcluded of {d}: {}",
        Answer(calls.planner.unexcluded(d))
    )
}

/// Exclusions of values that there are and are not.
pub fn questions(calls: &Calls<'_, impl Print, Cents>) -> io::Result<()> {
    exclusion(calls, 0, 0)?;
    exclusion(calls, 0, 1)?;
    exclusion(calls, 0, 2)?;
    exclusion(calls, 0, 3)?;
    exclusion(calls, 1, 1)?;
    exclusion(calls, 1, 2)?;
    exclusion(calls, 2, 1)?;
    exclusion(calls, 2, 0)?;
    exclusion(calls, 255, 255)?;
    unexcluded(calls, 1)?;
    unexcluded(calls, 2)
}

/// Sets the rank of a decision, and prints the answer.
fn rank(calls: &mut Calls<'_, impl Print, Cents>, decision: u8, rank: u8) -> io::Result<()> {
    let answer = done(calls.planner.rank(decision, rank));
    println!(calls.rt; "rank {decision} {rank}: {answer}")
}

/// Ranks of decisions that there are and are not.
pub fn ranks(calls: &mut Calls<'_, impl Print, Cents>) -> io::Result<()> {
    rank(calls, 0, 255)?;
    rank(calls, 1, 0)?;
    rank(calls, 2, 0)?;
    rank(calls, 255, 0)
}
