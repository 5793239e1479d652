//! Tables of rules at their fullest.
use calling::Calls;
use measure::{Cents, Price};
use rules::{Decision, Kind, Refusal, Rule};
use showing::{Trouble, done};
use std::io;
use worked::pair;

/// A decision of 2 values that is on, and one of 1 that is off.
const DECISIONS: [Decision; 2] = [
    Decision { size: 2, on: true },
    Decision { size: 1, on: false },
];

/// The largest price.
// Written out: taken from the constants, an edge would move with them.
const DEAR: Price = Price {
    tier: 255,
    cents: 1_000_000_000,
};

/// The rule of a kind with one pair; its target, if it has one, is decision 1.
fn dear(kind: Kind, decision: u8, value: u8) -> Result<Rule, Refusal> {
    Rule::of(kind, &[pair(decision, value)], 1, DEAR)
}

/// Adds a rule 257 times, and prints the last two answers.
fn fill(calls: &mut Calls<'_, impl Print, Cents>, what: &str, rule: &Rule) -> io::Result<()> {
    // Written out: taken from the constants, an edge would move with them.
    for time in 1..=257u32 {
        let answer = done(calls.planner.add(rule));
        if time > 255 {
            println!(calls.rt; "add {what}, time {time}: {answer}")?;
        }
    }
    Ok(())
}

/// Fills the table of each kind.
pub fn fillings(calls: &mut Calls<'_, impl Print, Cents>) -> Result<(), Trouble> {
    calls.planner.open(&DECISIONS)?;
    fill(calls, "forbid", &dear(Kind::Forbid, 0, 2)?)?;
    fill(calls, "activate", &dear(Kind::Activate, 0, 1)?)?;
    fill(calls, "price", &dear(Kind::Price, 1, 1)?)?;
    Ok(())
}

/// Adds and withdrawals where the table of prices is full, and then lacks one.
pub fn overflows(calls: &mut Calls<'_, impl Print, Cents>) -> Result<(), Trouble> {
    let price = dear(Kind::Price, 1, 1)?;
    calls.add("price of an unknown decision", &dear(Kind::Price, 2, 1)?)?;
    calls.add("price of value 0", &dear(Kind::Price, 1, 0)?)?;
    calls.add("price of value 2 of 1", &dear(Kind::Price, 1, 2)?)?;
    calls.withdraw_price(256)?;
    calls.withdraw_price(usize::MAX)?;
    calls.withdraw_price(255)?;
    calls.withdraw_price(255)?;
    calls.add("price in its stead", &price)?;
    calls.add("price once more", &price)?;
    Ok(())
}
