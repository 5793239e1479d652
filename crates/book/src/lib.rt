//! Rule books as text: load, write, and the texts of outcomes and faults.
#![tactic(auto)]

mod carrying;
mod loading;
mod outcome;
mod planning;
mod shown;
mod texts;

pub use loading::{BOOK_ROOM, MOST_BYTES, load};
pub use outcome::{OUTCOME_ROOM, write_outcome};
pub use planning::plan_book;
pub use shown::small_texts;
pub use texts::{FAULT_ROOM, write, write_fault};
