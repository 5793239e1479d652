//! Reading a line.
ghost use Rattle.std.specs.Prelude.{◌≡◌};
ghost use Rattle.statements.specs.Fields.{fields_of};
ghost use Rattle.statements.specs.Statements.{read_activate, read_decision, read_fields, read_forbid, read_line, read_pairs, read_price, ruled, then};
ghost use Rattle.statements.specs.Views.{line_of, on_ok, place, remaining, stated_of};

use crate::fields::Fields;
use crate::known::KnownLine;
use crate::{Fault, Line, LineKind, Parts, Statement};
use measure::Price;
use rules::{Decision, Kind, MOST_PAIRS, Refusal};

/// Reads a decision: its size, and its mark.
#[tactic(auto, unfolding(crate::specs::Statements::read_decision))]
fn read_decision(mut fields: Fields) -> Result<Statement, Fault>
    ensures { on_ok stated_of result ≡ read_decision fields.entry.line (place fields.entry) (remaining fields.entry) }
{
    let size = fields.field()?;
    let on = fields.field()?;
    Ok(Statement::Decision(Decision { size, on }))
}

/// Reads the pairs of a rule, which has its other parts. Refuses a rule whose pairs are missing or more than four.
fn read_rule(fields: Fields, kind: Kind, target: u8, price: Price) -> Result<Statement, Fault>
    ensures { on_ok stated_of result ≡ then (read_pairs fields.entry.line (place fields.entry) (remaining fields.entry)) (λ ps. ruled fields.entry.line kind ps target price) }
{
    let line = fields.line();
    let pairs = fields.pairs()?;
    let count = pairs.as_slice().len();
    // Counted here too: `read_line` refuses it by itself, before a rule is composed.
    if !(1..=MOST_PAIRS).contains(&count) {
        return Err(Fault::at_line(Refusal::PairCount, line));
    }
    Ok(Statement::Rule(Parts {
        kind,
        pairs,
        target,
        price,
    }))
}

/// Reads a forbid rule: its pairs.
#[tactic(auto, unfolding(crate::specs::Statements::read_forbid))]
fn read_forbid(fields: Fields) -> Result<Statement, Fault>
    ensures { on_ok stated_of result ≡ read_forbid fields.entry.line (place fields.entry) (remaining fields.entry) }
{
    read_rule(fields, Kind::Forbid, 0, Price::default())
}

/// Reads an activate rule: its target, then its pairs.
#[tactic(auto, unfolding(crate::specs::Statements::read_activate))]
fn read_activate(mut fields: Fields) -> Result<Statement, Fault>
    ensures { on_ok stated_of result ≡ read_activate fields.entry.line (place fields.entry) (remaining fields.entry) }
{
    let target = fields.field()?;
    read_rule(fields, Kind::Activate, target, Price::default())
}

/// Reads a price rule: tier and cents, then its pairs.
#[tactic(auto, unfolding(crate::specs::Statements::read_price))]
fn read_price(mut fields: Fields) -> Result<Statement, Fault>
    ensures { on_ok stated_of result ≡ read_price fields.entry.line (place fields.entry) (remaining fields.entry) }
{
    let tier = fields.field()?;
    let cents = fields.field()?;
    read_rule(fields, Kind::Price, 0, Price { tier, cents })
}

/// Reads the fields of a line of a known kind.
fn read_fields(known: &KnownLine) -> Result<Statement, Fault>
    ensures { on_ok stated_of result ≡ read_fields known.now.kind known.now.line.number (fields_of known.now.line.bytes.now) }
{
    let fields = Fields::of(known);
    match known.kind {
        LineKind::Decision => read_decision(fields),
        LineKind::Forbid => read_forbid(fields),
        LineKind::Activate => read_activate(fields),
        LineKind::Price => read_price(fields),
    }
}

/// What a line states. Refuses, in this order: a line of no kind, a decision after a rule (`began` says if one came
/// before), fields that are empty, too many or missing or a missing end, a field not of its form, pairs that are
/// missing or more than four.
// A flag, as this call and the definition that it is held to are to take it.
#[tactic(auto, unfolding(crate::specs::Statements::read_line))]
pub fn read_line(line: &Line, began: bool) -> Result<Statement, Fault>
    ensures { on_ok stated_of result ≡ read_line began (line_of line.now) }
{
    // A match: with `map_err` the proof of the refusal did not close, since nothing was known of what the closure gave.
    let known = match KnownLine::of(line) {
        Ok(known) => known,
        Err(refusal) => return Err(Fault::at_line(refusal, line.number)),
    };
    if known.kind.is_late(began) {
        return Err(Fault::at_line(Refusal::DecisionAfterRule, line.number));
    }
    known.check_fields()?;
    read_fields(&known)
}
