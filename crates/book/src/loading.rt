//! Loading a book.
ghost use Rattle.std.specs.Prelude.{◌≡◌, false, []};
ghost use Rattle.account.specs.Accounts.{fresh};
ghost use Rattle.planner.specs.Planners.{account_of};
ghost use Rattle.statements.specs.Lines.{lines_of};
ghost use Rattle.statements.specs.Views.{line_of, on_ok};
ghost use Rattle.book.specs.Laws.{AgreesWithCalls, ReadAsStated};
ghost use Rattle.book.specs.Loads.{left_by, load_lines, loaded, verdict};
ghost use Rattle.book.specs.Steps.{line_step};

use crate::carrying::{carry_out, has_begun};
use measure::Measure;
use planner::Planner;
use rules::Refusal;
use statements::{Fault, Line, Lines, read_line};

/// The most bytes that a book may have.
pub const MOST_BYTES: usize = 65_536;

/// Room for any book and one byte more, so that one too large is seen.
pub const BOOK_ROOM: usize = MOST_BYTES + 1;

/// Reads a line and carries out what it states. `began` is whether a rule line came before; the answer, whether one has
/// come by now.
// A flag, as `read_line` takes it.
fn load_line<M: Measure>(planner: &mut Planner<M>, line: &Line, began: bool) -> Result<bool, Fault>
    ensures { on_ok (λ t. (t, account_of planner.new)) result ≡ line_step M.meaning began (account_of planner.old) (line_of line.now) }
{
    let statement = read_line(line, began)?;
    // A match: with `map_err` and `?` the proof did not close.
    match carry_out(planner, &statement) {
        Ok(()) => Ok(has_begun(began, &statement)),
        Err(refusal) => Err(Fault::at_line(refusal, line.number)),
    }
}

/// Reads the lines of a text and carries them out, up to the first fault.
fn load_lines<M: Measure>(planner: &mut Planner<M>, text: &[u8]) -> Result<(), Fault>
    ensures { on_ok (λ u. account_of planner.new) result ≡ load_lines M.meaning false (account_of planner.old) (lines_of text.now) }
{
    let mut began = false;
    for line in Lines::of(text) {
        began = load_line(planner, &line, began)?;
    }
    Ok(())
}

/// Opens a planner over no decisions.
fn clear<M: Measure>(planner: &mut Planner<M>)
    ensures { account_of planner.new ≡ fresh [] }
{
    // Never refused: proved.
    planner.open(&[]).unwrap();
}

/// Makes a planner one over the decisions that a text states, with the rules that it states, as open and then an add
/// for each rule line would. Refuses with the fault of the text, by number, line and column; the planner is then one
/// over no decisions. A text that is accepted is the text of its decisions and rules and of nothing else, and every
/// text of decisions and rules is loaded as open and the adds would have it, their refusals too.
#[tactic(auto, using(crate::proofs::Agreeing::agrees, crate::proofs::LoadSteps::large_left, crate::proofs::LoadSteps::large_verdict, crate::proofs::Stating::read_as_stated))]
pub fn load<M: Measure>(planner: &mut Planner<M>, text: &[u8]) -> Result<(), Fault>
    ensures value { result ≡ verdict (loaded M.meaning text.now) }
    ensures after { account_of planner.new ≡ left_by (loaded M.meaning text.now) }
    ensures stated { ReadAsStated M.meaning text.now }
    ensures agrees { AgreesWithCalls M.meaning text.now }
{
    clear(planner);
    if text.len() > MOST_BYTES {
        return Err(Fault::at_line(Refusal::BookTooLarge, 1));
    }
    let outcome = load_lines(planner, text);
    if outcome.is_err() {
        clear(planner);
    }
    outcome
}
