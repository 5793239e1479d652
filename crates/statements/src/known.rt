//! Lines of a known kind.
ghost use Rattle.std.specs.Prelude.{◌≡◌, ◌^◌, ◌<◌, ◌≤◌, length, MatchResult, Some, None};
ghost use Rattle.reading.specs.Cursors.{column, left};
ghost use Rattle.rules.specs.declared.refusal.Refusal.TheVariants.{UnknownLine};
ghost use Rattle.statements.specs.Fields.{fields_of};
ghost use Rattle.statements.specs.Lines.{kind_of};

use crate::{Line, LineKind};
use reading::Pieces;
use rules::Refusal;

/// A line whose kind is known: it begins with the kind's letter and a space.
#[derive(Clone, Copy)]
pub struct KnownLine<'a> {
    pub kind: LineKind,
    pub line: Line<'a>,
    ghost long: { 2 ≤ length line.bytes.now },
}

impl<'a> KnownLine<'a> {
    /// A line with its kind, by its first byte, if a space follows.
    pub fn of(line: &Line<'a>) -> Result<KnownLine<'a>, Refusal>
        ensures { MatchResult result (λ known. (kind_of line.now.bytes.now ≡ Some known.kind) × (known.line ≡ line.now)) (λ e. (kind_of line.now.bytes.now ≡ None) × (e ≡ UnknownLine)) }
    {
        let [letter, b' ', ..] = line.bytes else {
            return Err(Refusal::UnknownLine);
        };
        let kind = LineKind::try_from(char::from(*letter))?;
        Ok(KnownLine { kind, line: *line })
    }

    /// The fields of the line: what stands behind its letter and space, cut at each space.
    pub fn fields(&self) -> Pieces<'a>
        ensures fields { left result ≡ fields_of self.now.line.bytes.now }
        ensures column { column result ≡ 3 }
        ensures few { length (left result) < 2 ^ 64 }
    {
        Pieces::starting(self.line.bytes, b' ', 2)
    }
}
