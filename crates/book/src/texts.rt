//! The texts of books and faults.
ghost use Rattle.std.specs.Prelude.{◌≡◌, ◌≤◌, ◌++◌, length};
ghost use Rattle.planner.specs.Planners.{account_of};
ghost use Rattle.rendering.specs.Fills.{counted, filled};
ghost use Rattle.rendering.specs.Texts.{book_text, fault_text};
ghost use Rattle.book.specs.Laws.{LoadsBack, rows_of};

use measure::Measure;
use planner::Planner;
use rendering::{BookText, Text};
use rules::{Kind, Refusal};
use statements::Fault;

/// Room for the text of any fault.
pub const FAULT_ROOM: usize = 64;

/// What the book of a planner states.
fn stated<M: Measure>(planner: &Planner<M>) -> BookText<'_>
    ensures decisions { result.decisions.now ≡ (account_of planner.now).book.decisions }
    ensures rules { result.forbids.now ++ (result.activates.now ++ result.prices.now) ≡ rows_of (account_of planner.now).book }
{
    BookText {
        decisions: planner.decisions(),
        forbids: planner.rules(Kind::Forbid),
        activates: planner.rules(Kind::Activate),
        prices: planner.rules(Kind::Price),
    }
}

/// Writes the book of a planner, its decisions and rules, as text, and answers the byte count; later bytes stay.
/// Refuses a buffer that is too short, which then stays as it was. Whatever was called on the planner,
/// what is written is loaded as the same decisions and the same rules in the same order.
#[tactic(auto, using(crate::proofs::LoadedBack::loads_back))]
pub fn write<M: Measure>(planner: &Planner<M>, buffer: &mut [u8]) -> Result<usize, Refusal>
    ensures value { result ≡ counted (book_text (account_of planner.now).book.decisions (rows_of (account_of planner.now).book)) buffer.old }
    ensures after { buffer.new ≡ filled (book_text (account_of planner.now).book.decisions (rows_of (account_of planner.now).book)) buffer.old }
    ensures law { LoadsBack M.meaning }
{
    stated(planner).fill(buffer)
}

/// Writes the text of a fault, `refused` with its number, layer, line and column, and answers the byte count; later
/// bytes stay. Refuses a buffer that is too short, as `FAULT_ROOM` bytes never are; it then stays as it was.
#[tactic(auto, using(crate::proofs::Rooms::fault_short))]
pub fn write_fault(fault: Fault, buffer: &mut [u8]) -> Result<usize, Refusal>
    ensures value { result ≡ counted (fault_text fault.refusal fault.line fault.column) buffer.old }
    ensures after { buffer.new ≡ filled (fault_text fault.refusal fault.line fault.column) buffer.old }
    ensures short { length (fault_text fault.refusal fault.line fault.column) ≤ FAULT_ROOM }
{
    fault.fill(buffer)
}
