//! Writing text byte by byte, into what counts it or what keeps it.

#![tactic(auto)]

mod counter;
mod filler;
mod sink;

pub use counter::Counter;
pub use filler::Filler;
pub use sink::Sink;
