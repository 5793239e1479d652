//! The text of books, faults and outcomes, and writing it into a caller's buffer.

#![tactic(auto)]

mod book;
mod decisions;
mod fault;
mod field;
mod outcome;
mod rows;
mod text;

pub use book::BookText;
pub use outcome::Outcome;
pub use text::Text;
