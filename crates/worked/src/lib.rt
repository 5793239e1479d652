//! The worked book: three decisions, and the rules between them.
#![tactic(auto)]

mod book;
mod parts;

pub use book::Book;
pub use parts::{activate, charge, forbid, pair};
