//! Plans a rule book: reads it on standard input, and prints the plan or the book's fault.
#![tactic(auto)]

use book::OUTCOME_ROOM;
use planning::plan_input;
use std::io::Write;

mod planning;

// By `anyhow`, which shows an error of the input or the output in its own words.
fn main(rt: HostRuntime) -> anyhow::Result<()> {
    let mut answer = [0; OUTCOME_ROOM];
    let text = plan_input(&mut rt.stdin(), &mut answer)?;
    rt.stdout().write_all(text)?;
    Ok(())
}
