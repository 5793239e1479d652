//! Planning a book from an input to the text of its plan.
ghost use Rattle.std.specs.Prelude.{◌≡◌, ℕ, List, IfOk, IfSome};
ghost use Rattle.measure.specs.Supplied.{cents, pair_of, tier};
ghost use Rattle.book.specs.Outcomes.{plan_text};

use book::{BOOK_ROOM, OUTCOME_ROOM, plan_book};
use input::read_input;
use planner::Planner;
use std::io;
use std::io::Read;

/// Plans a book, and answers the text of its plan, or of its fault. There is always one.
#[tactic(auto, using(crate::proofs::Cutting::told))]
fn plan<'a>(book: &[u8], answer: &'a mut [u8; OUTCOME_ROOM]) -> &'a [u8]
    ensures { result.now ≡ plan_text (pair_of tier cents) book.now }
{
    let mut planner = Planner::new();
    // Never refused: proved.
    let length = plan_book(&mut planner, book, answer).unwrap();
    &answer[..length]
}

/// Reads a book from an input, plans it, and answers the text of its plan, or of its fault. Of an input whose bytes are
/// known, all count, however many they are.
// An error is only ever the input's; of when a reader errs no contract says anything, so this one cannot either.
pub fn plan_input<'a, R: Read>(
    input: &mut R,
    answer: &'a mut [u8; OUTCOME_ROOM],
) -> io::Result<&'a [u8]>
    ensures planned { IfOk result (λ text. (bytes : List ℕ) × (text.now ≡ plan_text (pair_of tier cents) bytes)) }
    ensures whole { IfOk result (λ text. IfSome (R.remaining input.old) (λ bytes. text.now ≡ plan_text (pair_of tier cents) bytes)) }
{
    let mut buffer = [0; BOOK_ROOM];
    let book = read_input(input, &mut buffer)?;
    Ok(plan(book, answer))
}
