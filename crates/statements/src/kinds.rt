//! The kind of a line.
ghost use Rattle.std.specs.Prelude.{◌≡◌, Some, not, ◌&&◌, ◌||◌};
ghost use Rattle.std.specs.Option.{ok_or};
ghost use Rattle.reading.specs.Pieces.{is_nil};
ghost use Rattle.rules.specs.declared.refusal.Refusal.TheVariants.{UnknownLine};
ghost use Rattle.statements.specs.Fields.{heads, takes_field};
ghost use Rattle.statements.specs.Lines.{is_decision, kind_by, letter_of};

use crate::LineKind;
use rules::Refusal;

impl TryFrom<char> for LineKind {
    type Error = Refusal;

    ghost try_from_gives = { λ letter r. r ≡ ok_or (kind_by letter) UnknownLine };

    /// The kind that a line's first letter stands for.
    fn try_from(letter: char) -> Result<LineKind, Refusal> {
        // The letters again: a match on characters is asked for.
        match letter {
            'D' => Ok(LineKind::Decision),
            'F' => Ok(LineKind::Forbid),
            'A' => Ok(LineKind::Activate),
            'P' => Ok(LineKind::Price),
            _ => Err(Refusal::UnknownLine),
        }
    }
}

impl LineKind {
    /// The byte that a line of this kind begins with.
    pub fn letter(self) -> u8
        ensures letter { result ≡ letter_of self }
        ensures read { kind_by result ≡ Some self }
    {
        self as u8
    }

    /// Whether a line of this kind states a decision.
    pub fn is_decision(self) -> bool
        ensures { result ≡ is_decision self }
    {
        self == LineKind::Decision
    }

    /// Whether a line of this kind comes too late: it states a decision, and a rule came before.
    pub fn is_late(self, began: bool) -> bool
        ensures { result ≡ (began && is_decision self) }
    {
        began && self.is_decision()
    }

    /// How many fields a line of this kind has before its pairs.
    pub fn heads(self) -> usize
        ensures { result ≡ heads self }
    {
        match self {
            LineKind::Decision | LineKind::Price => 2,
            LineKind::Activate => 1,
            LineKind::Forbid => 0,
        }
    }

    /// Whether a line of this kind may have a field at a place, counted from 0.
    pub fn takes_field(self, place: usize) -> bool
        ensures { result ≡ takes_field self place }
    {
        !self.is_decision() || place < 2
    }

    /// Whether a line of this kind cannot have this field at a place, counted from 0: it is empty or too many.
    pub fn rejects(self, place: usize, field: &[u8]) -> bool
        ensures { result ≡ (is_nil field.now || not (takes_field self place)) }
    {
        field.is_empty() || !self.takes_field(place)
    }
}
