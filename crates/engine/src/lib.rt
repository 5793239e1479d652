//! A planner in cents for Rust or C to link: a book in bytes goes in, the outcome of a run comes out.
#![tactic(auto)]

ghost use Rattle.std.specs.Prelude.{◌≡◌};
ghost use Rattle.engine.specs.Answered.{answered, left_or, number};
ghost use Rattle.engine.specs.Laws.{AnswersAsCalls};

mod decoding;
mod fault;
mod layout;
mod loading;
mod outcome;
mod running;
mod shown;

pub use outcome::Outcome;
use planner::Planner;
use running::run_book;
pub use shown::small_books;

/// Makes a run of at most `budget` steps over a book of bytes. If a best is held, its plan is written, a byte for each
/// decision; later bytes stay. Answers 0, or the number of the first fault: that of a refusal, as of a budget above
/// 1,000,000, or 255 for bytes that are no book. With a fault the plan and the outcome stay as they were.
///
/// A book is the number of decisions; for each its size, and 1 if it is on, else 0; and 16 bytes for each rule: its
/// kind (0 forbid, 1 activate, 2 price), its number of pairs, four pairs of decision and value, target, tier, and cents
/// in four bytes, the lowest first.
#[unsafe(no_mangle)]
#[tactic(auto, using(crate::proofs::Calling::answers_as_calls))]
pub extern "C" fn engine_run(book: &[u8], budget: u32, plan: &mut [u8], outcome: &mut Outcome) -> u8
    ensures value { result ≡ number (answered book.now budget plan.old) }
    ensures outcome { outcome.new ≡ left_or outcome.old (λ p. p.outcome) (answered book.now budget plan.old) }
    ensures plan { plan.new ≡ left_or plan.old (λ p. p.plan) (answered book.now budget plan.old) }
    ensures law { AnswersAsCalls book.now budget plan.old }
{
    let mut planner = Planner::new();
    match run_book(&mut planner, book, budget, plan) {
        Ok(found) => {
            *outcome = found;
            0
        }
        Err(fault) => fault.number(),
    }
}
