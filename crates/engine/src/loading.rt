//! Loading a book of bytes into a planner.
ghost use Rattle.std.specs.Prelude.{◌≡◌, ◌≤◌, length};
ghost use Rattle.measure.specs.Supplied.{cents};
ghost use Rattle.planner.specs.Planners.{account_of};
ghost use Rattle.engine.specs.Answered.{loaded, on_ok, opened, read_record, read_records};

use crate::decoding::{decisions_of, row_of};
use crate::fault::Fault;
use crate::layout::layout_of;
use measure::Cents;
use planner::Planner;
use rules::Rule;

/// Opens a planner over the decisions that are stated, each by a size and a mark.
fn read_decisions(planner: &mut Planner<Cents>, stated: &[[u8; 2]]) -> Result<(), Fault>
    requires few { length stated.now ≤ 255 }
    ensures { on_ok (λ u. account_of planner.new) result ≡ opened stated.now }
{
    let decisions = decisions_of(stated).ok_or(Fault::Malformed)?;
    planner.open(decisions.as_slice())?;
    Ok(())
}

/// Composes the rule that a record states, and adds it to a planner.
fn read_rule(planner: &mut Planner<Cents>, bytes: &[u8; 16]) -> Result<(), Fault>
    ensures { on_ok (λ u. account_of planner.new) result ≡ read_record cents (account_of planner.old) bytes.now }
{
    let row = row_of(bytes).ok_or(Fault::Malformed)?;
    let rule = Rule::of(row.kind, row.condition(), row.target, row.price)?;
    planner.add(&rule)?;
    Ok(())
}

/// Adds the rules that records state, up to the first fault.
fn read_rules(planner: &mut Planner<Cents>, records: &[[u8; 16]]) -> Result<(), Fault>
    ensures { on_ok (λ u. account_of planner.new) result ≡ read_records cents (account_of planner.old) records.now }
{
    for bytes in records {
        read_rule(planner, bytes)?;
    }
    Ok(())
}

/// Opens a planner over the decisions of a book, and adds its rules. With a fault nothing is said of the planner, which
/// is then let go.
pub fn read_book(planner: &mut Planner<Cents>, book: &[u8]) -> Result<(), Fault>
    ensures { on_ok (λ u. account_of planner.new) result ≡ loaded cents book.now }
{
    let layout = layout_of(book).ok_or(Fault::Malformed)?;
    read_decisions(planner, layout.decisions)?;
    read_rules(planner, layout.records)
}
