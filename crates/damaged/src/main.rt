//! Loads many books, most of them damaged, and prints the fault of each.
#![tactic(auto)]

use book::{BOOK_ROOM, FAULT_ROOM, load, write_fault};
use frames::{Frames, repeat};
use input::read_input;
use measure::TierThenCents;
use planner::Planner;
use std::io;
use std::io::Write;

mod frames;

/// Room for the frames on standard input.
const INPUT: usize = 131_072;

/// The most frames that are read.
const FRAMES: usize = 1_000;

/// Loads a book, and prints `accepted`, or its fault.
fn show(rt: &HostRuntime, planner: &mut Planner<TierThenCents>, book: &[u8]) -> io::Result<()> {
    match load(planner, book) {
        Ok(()) => rt.println("accepted"),
        Err(fault) => {
            let mut line = [0; FAULT_ROOM];
            // Never refused: proved.
            let length = write_fault(fault, &mut line).unwrap();
            rt.stdout().write_all(&line[..length])
        }
    }
}

/// Shows the book of each frame.
fn show_all(rt: &HostRuntime, frames: &[u8]) -> io::Result<()> {
    let mut planner = Planner::new();
    let mut book = [0; BOOK_ROOM];
    for frame in Frames(frames).take(FRAMES) {
        let text = repeat(frame.part, frame.times, &mut book);
        show(rt, &mut planner, text)?;
    }
    Ok(())
}

// By `anyhow`, which shows an error of the input or the output in its own words.
fn main(rt: HostRuntime) -> anyhow::Result<()> {
    let mut buffer = [0; INPUT];
    show_all(&rt, read_input(&mut rt.stdin(), &mut buffer)?)?;
    Ok(())
}
