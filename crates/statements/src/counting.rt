//! Whether a line has the fields that its kind asks for.
ghost use Rattle.std.specs.Prelude.{◌≡◌, not, ◌||◌, length, Ok, nat_lt};
ghost use Rattle.std.specs.Option.{option_map};
ghost use Rattle.rules.specs.declared.refusal.Refusal.TheVariants.{FieldCount};
ghost use Rattle.statements.specs.Fields.{field_fault, fields_of, first_bad, heads};
ghost use Rattle.statements.specs.Statements.{fault, unless};

use crate::Fault;
use crate::known::KnownLine;
use rules::Refusal;

impl KnownLine<'_> {
    /// The column of the first field that is empty or too many.
    fn rejected(&self) -> Option<usize>
        ensures { result ≡ first_bad self.now.kind 0 3 (fields_of self.now.line.bytes.now) }
    {
        self.fields()
            .enumerate()
            .find(|(place, field)| self.kind.rejects(*place, field.bytes))
            .map(|(_, field)| field.column)
    }

    /// Whether the line lacks a field or its end.
    fn is_short(&self) -> bool
        ensures { result ≡ (nat_lt (length (fields_of self.now.line.bytes.now)) (heads self.now.kind) || not self.now.line.ended) }
    {
        // As many fields as are asked for, and no more: a line may have thousands.
        let heads = self.kind.heads();
        self.fields().take(heads).count() < heads || !self.line.ended
    }

    /// The column of the first field that is empty, too many or missing, or of the missing end.
    fn faulty_column(&self) -> Option<usize>
        ensures { result ≡ field_fault self.now.kind self.now.line.ended self.now.line.bytes.now }
    {
        let rejected = self.rejected();
        // By `if`: `or` would count on, and of what the closure of an `or_else` gives nothing would be known.
        if rejected.is_some() {
            return rejected;
        }
        self.is_short().then_some(self.line.bytes.len() + 1)
    }

    /// Refuses a line with a field that is empty, too many or missing, or without its end.
    pub fn check_fields(&self) -> Result<(), Fault>
        ensures { result ≡ unless (option_map (fault FieldCount self.now.line.number) (field_fault self.now.kind self.now.line.ended self.now.line.bytes.now)) (Ok tt) }
    {
        if let Some(column) = self.faulty_column() {
            return Err(Fault {
                refusal: Refusal::FieldCount,
                line: self.line.number,
                column,
            });
        }
        Ok(())
    }
}
