//! What the lines of a rule book state: their kinds, fields and forms, and the faults of a line.

#![tactic(auto)]

mod counting;
mod fault;
mod fields;
mod forms;
mod kinds;
mod known;
mod line;
mod lines;
mod pairs;
mod reading_line;
mod statement;
mod token;

pub use fault::Fault;
pub use line::{Line, LineKind};
pub use lines::Lines;
pub use pairs::Pairs;
pub use reading_line::read_line;
pub use statement::{Parts, Statement};
