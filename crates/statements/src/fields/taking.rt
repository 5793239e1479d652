//! Taking the fields of a line, each in its form.
ghost use Rattle.std.specs.Prelude.{◌≡◌, List, [], ◌∷◌, take, MatchResult};
ghost use Rattle.reading.specs.Numbers.{number_up_to};
ghost use Rattle.rules.specs.declared.refusal.Refusal.TheVariants.{MalformedField};
ghost use Rattle.statements.specs.Fields.{fields_of};
ghost use Rattle.statements.specs.Forms.{mark_of};
ghost use Rattle.statements.specs.Statements.{fault, formed, front, read_pairs};
ghost use Rattle.statements.specs.Views.{Advanced, HandedOn, on_ok, pairs_of, part_of, place, remaining};

use crate::fields::Fields;
use crate::known::KnownLine;
use crate::token::{Form, Placed};
use crate::{Fault, Pairs};
use reading::Piece;
use rules::{Literal, Refusal};

impl<'a> Fields<'a> {
    /// The fields of a line.
    pub fn of(known: &KnownLine<'a>) -> Fields<'a>
        ensures fields { remaining result ≡ fields_of known.now.line.bytes.now }
        ensures place { place result ≡ 3 }
        ensures line { result.line ≡ known.now.line.number }
    {
        Fields {
            pieces: known.fields(),
            line: known.line.number,
        }
    }

    /// The line's number.
    pub fn line(&self) -> usize
        ensures { result ≡ self.now.line }
    {
        self.line
    }

    /// A piece of the line as the token that its place asks for, with its line and column.
    fn placed<T: Form>(&self, piece: Piece<'a>) -> Placed<'a>
        ensures token { T.held result.token ≡ T.form piece.entry.bytes.now }
        ensures part { part_of result.token ≡ piece.entry.bytes.now }
        ensures line { result.line ≡ self.now.line }
        ensures column { result.column ≡ piece.entry.column }
    {
        Placed {
            token: T::token(piece.bytes),
            line: self.line,
            column: piece.column,
        }
    }

    /// The next field as the token that its place asks for: the part of the line that it occupies. Or the fault of a
    /// field that is missing.
    fn token<T: Form>(&mut self) -> Result<Placed<'a>, Fault>
        ensures value { MatchResult result (λ p. (T.held p.token ≡ T.form (front (remaining self.old))) × HandedOn self.old p) (λ e. (remaining self.old ≡ []) × (e ≡ fault MalformedField self.old.line (place self.old))) }
        ensures after { Advanced self.old self.new }
    {
        let column = self.pieces.column();
        let piece = self.pieces.next().ok_or(Fault {
            refusal: Refusal::MalformedField,
            line: self.line,
            column,
        })?;
        Ok(self.placed::<T>(piece))
    }

    /// The next field, in the form that its place asks for.
    pub fn field<T: Form>(&mut self) -> Result<T, Fault>
        ensures value { result ≡ formed self.old.line (place self.old) (T.form (front (remaining self.old))) }
        ensures after { Advanced self.old self.new }
    {
        self.token::<T>()?.formed()
    }

    /// The fields to come, as pairs.
    #[tactic(auto, using(crate::proofs::Gathers::one_pair))]
    pub fn pairs(self) -> Result<Pairs, Fault>
        ensures { on_ok pairs_of result ≡ on_ok (take 5) (read_pairs self.entry.line (place self.entry) (remaining self.entry)) }
    {
        let mut pairs = Pairs::new();
        for field in self.pieces {
            let pair = self.placed::<Literal>(field).formed()?;
            pairs.push(pair);
        }
        Ok(pairs)
    }
}
