//! Calls at the edges of what is accepted, a line for each with its answer or its refusal's number.
#![tactic(auto)]

use calling::Calls;
use measure::Cents;
use showing::Trouble;

mod asking;
mod filling;
mod openings;

fn main(rt: HostRuntime) -> Result<(), Trouble> {
    let mut calls = Calls::<_, Cents>::new(&rt);
    openings::openings(&mut calls)?;
    openings::composings(&rt)?;
    filling::fillings(&mut calls)?;
    filling::overflows(&mut calls)?;
    asking::budgets(&mut calls)?;
    asking::buffers(&calls)?;
    asking::questions(&calls)?;
    asking::ranks(&mut calls)?;
    Ok(())
}
