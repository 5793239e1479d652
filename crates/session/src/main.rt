//! Takes the worked book through a planner, and prints each call with its answer.
#![tactic(auto)]

use calling::Calls;
use measure::{Cents, Measure, Tier};
use questions::{best, exclusions};
use showing::Trouble;
use shown::Stated;
use std::io;
use worked::{Book, forbid, pair};

mod questions;
mod shown;

/// More steps than any run here needs.
const AMPLE: u32 = 1000;

/// Opens a planner over the worked book and adds its rules, each call printed.
fn state_book(calls: &mut Calls<'_, impl Print, Cents>, book: &Book) -> io::Result<()> {
    calls.open("3 on, 2 off, 3 off", &book.decisions)?;
    for rule in &book.rules {
        calls.add(Stated(rule.row()), rule)?;
    }
    Ok(())
}

/// Opens a planner over the worked book and adds its rules, with one line printed of it all.
fn load_book<M: Measure>(calls: &mut Calls<'_, impl Print, M>, book: &Book) -> Result<(), Trouble> {
    calls.planner.open(&book.decisions)?;
    for rule in &book.rules {
        calls.planner.add(rule)?;
    }
    println!(calls.rt; "open, and add the {} rules again: done", book.rules.len())?;
    Ok(())
}

/// Forbids one value of a decision.
fn forbid_value(
    calls: &mut Calls<'_, impl Print, Cents>,
    decision: u8,
    value: u8,
) -> Result<(), Trouble> {
    let rule = forbid(&[pair(decision, value)])?;
    calls.add(Stated(rule.row()), &rule)?;
    Ok(())
}

/// From the opening to the settled plan.
fn settle(calls: &mut Calls<'_, impl Print, Cents>, book: &Book) -> io::Result<()> {
    println!(calls.rt; "== in cents ==")?;
    state_book(calls, book)?;
    best(calls, &mut [0; 3])?;
    calls.run(14)?;
    best(calls, &mut [0; 3])?;
    calls.run(1)?;
    best(calls, &mut [0; 3])?;
    exclusions(calls)
}

/// A price goes, and what is then cheapest.
fn lose_a_price(calls: &mut Calls<'_, impl Print, Cents>) -> io::Result<()> {
    println!(calls.rt; "== the price of 0=2 goes ==")?;
    calls.withdraw_price(1)?;
    best(calls, &mut [0; 3])?;
    exclusions(calls)?;
    calls.run(AMPLE)?;
    best(calls, &mut [0; 3])?;
    exclusions(calls)
}

/// The same search again, stopped where exclusions have reasons.
fn settle_again(calls: &mut Calls<'_, impl Print, Cents>, book: &Book) -> Result<(), Trouble> {
    println!(calls.rt; "== with reasons ==")?;
    load_book(calls, book)?;
    calls.run(3)?;
    exclusions(calls)?;
    calls.run(7)?;
    exclusions(calls)?;
    calls.run(AMPLE)?;
    best(calls, &mut [0; 3])?;
    Ok(())
}

/// A settled planner, and then a value of decision 0 is forbidden.
fn lose_a_value(
    calls: &mut Calls<'_, impl Print, Cents>,
    book: &Book,
    value: u8,
) -> Result<(), Trouble> {
    println!(calls.rt; "== 0={value} is forbidden ==")?;
    load_book(calls, book)?;
    calls.run(AMPLE)?;
    forbid_value(calls, 0, value)?;
    best(calls, &mut [0; 3])?;
    exclusions(calls)?;
    calls.run(AMPLE)?;
    best(calls, &mut [0; 3])?;
    Ok(())
}

/// Calls that are refused, and what the planner then still holds.
fn be_refused(calls: &mut Calls<'_, impl Print, Cents>) -> Result<(), Trouble> {
    println!(calls.rt; "== refused ==")?;
    forbid_value(calls, 3, 1)?;
    forbid_value(calls, 1, 3)?;
    calls.withdraw_price(8)?;
    calls.run(1_000_001)?;
    best(calls, &mut [0; 2])?;
    best(calls, &mut [0; 3])?;
    Ok(())
}

/// The worked book under the measure `Tier`.
fn settle_tiers(rt: &impl Print, book: &Book) -> Result<(), Trouble> {
    println!(rt; "== in tiers ==")?;
    let mut calls = Calls::<_, Tier>::new(rt);
    load_book(&mut calls, book)?;
    calls.run(AMPLE)?;
    best(&calls, &mut [0; 3])?;
    exclusions(&calls)?;
    Ok(())
}

fn main(rt: HostRuntime) -> Result<(), Trouble> {
    let book = Book::worked()?;
    let mut calls = Calls::<_, Cents>::new(&rt);
    settle(&mut calls, &book)?;
    lose_a_price(&mut calls)?;
    settle_again(&mut calls, &book)?;
    lose_a_value(&mut calls, &book, 1)?;
    lose_a_value(&mut calls, &book, 3)?;
    be_refused(&mut calls)?;
    settle_tiers(&rt, &book)
}
