//! Openings and rules at the edges of what is accepted.
use calling::Calls;
use measure::{Cents, Price};
use rules::{Decision, Kind, Literal, Rule};
use showing::done;
use std::io;
use worked::pair;

/// A decision of this size that is on.
fn sized(size: u8) -> Decision {
    Decision { size, on: true }
}

/// Openings with many decisions, and with sizes small and large.
pub fn openings(calls: &mut Calls<'_, impl Print, Cents>) -> io::Result<()> {
    // Written out, here and below: taken from the constants, an edge would move with them.
    calls.open("with 0 decisions", &[])?;
    calls.open("with 64 decisions", &[sized(1); 64])?;
    calls.open("with 65 decisions", &[sized(1); 65])?;
    calls.open("with size 0", &[sized(0)])?;
    calls.open("with size 1", &[sized(1)])?;
    calls.open("with size 16", &[sized(16)])?;
    calls.open("with size 17", &[sized(17)])?;
    calls.open("with sizes 16 and 17", &[sized(16), sized(17)])?;
    calls.open("with 65 of size 17", &[sized(17); 65])
}

/// Composes a rule, by `compose` and not by `Rule::of`: the line tells what `compose` answers.
fn compose(
    rt: &impl Print,
    what: &str,
    kind: Kind,
    pairs: &[Literal],
    cents: u32,
) -> io::Result<()> {
    let mut rule = Rule::new();
    let answer = done(rule.compose(kind, pairs, 0, Price { tier: 255, cents }));
    println!(rt; "compose {what}: {answer}")
}

/// Rules with few and many pairs, with pairs out of order, and with large prices.
pub fn composings(rt: &impl Print) -> io::Result<()> {
    let four = [pair(0, 1), pair(1, 1), pair(62, 1), pair(63, 1)];
    let five = [0, 1, 2, 3, 4].map(|decision| pair(decision, 1));
    compose(rt, "0 pairs", Kind::Forbid, &[], 0)?;
    compose(rt, "1 pair", Kind::Forbid, &[pair(255, 1)], 0)?;
    compose(rt, "4 pairs", Kind::Forbid, &four, 0)?;
    compose(rt, "5 pairs", Kind::Forbid, &five, 0)?;
    compose(
        rt,
        "a pair twice",
        Kind::Forbid,
        &[pair(1, 1), pair(1, 1)],
        0,
    )?;
    compose(
        rt,
        "1,000,000,000 cents",
        Kind::Price,
        &[pair(0, 1)],
        1_000_000_000,
    )?;
    compose(
        rt,
        "1,000,000,001 cents",
        Kind::Price,
        &[pair(0, 1)],
        1_000_000_001,
    )?;
    compose(
        rt,
        "a forbid of such cents",
        Kind::Forbid,
        &[pair(0, 1)],
        1_000_000_001,
    )
}
