//! The fields of a line as tokens: each is the part of the text that it occupies.
ghost use Rattle.std.specs.Prelude.{◌≡◌, List, ℕ, [], None, Option, refl};
ghost use Rattle.reading.specs.Numbers.{number_up_to};
ghost use Rattle.statements.specs.Forms.{mark_of, nothing_is_no_number, nothing_is_no_pair, pair_of};
ghost use Rattle.statements.specs.Statements.{formed};
ghost use Rattle.statements.specs.Views.{mark_in, number_in, pair_in, part_of};
ghost use Rattle.statements.specs.declared.token.Token.{Token};

use crate::Fault;
use crate::forms::{byte_of, mark_of, pair_of};
use reading::number;
use rules::{Literal, Refusal};

/// A field, by the form that its place asks for. Tokens, since each is to be the part of the text that it occupies.
#[derive(Clone, Copy, Debug, PartialEq, Eq)]
pub enum Token<'a> {
    Number(&'a [u8]),
    Mark(&'a [u8]),
    Pair(&'a [u8]),
}

/// A form that a place can ask for: a field of it as a token, and what such a token is read as.
pub trait Form: Sized {
    ghost form: { List ℕ → Option Self };

    ghost held: { Token → Option Self };

    /// A field as the token of this form, which is the part of the text that the field is.
    fn token(field: &[u8]) -> Token<'_>
        ensures held { held result ≡ form field.now }
        ensures part { part_of result ≡ field.now };

    /// What the token is, if it is of this form.
    fn of(token: Token) -> Option<Self>
        ensures { result ≡ held token.entry };

    // A field that is missing is of no form.
    ghost nothing: { form [] ≡ None };
}

/// A token, with its line and column, both counted from 1.
#[derive(Clone, Copy, Debug, PartialEq, Eq)]
pub struct Placed<'a> {
    pub token: Token<'a>,
    pub line: usize,
    pub column: usize,
}

/// A number up to 255.
impl Form for u8 {
    ghost form = { number_up_to 255 };

    ghost held = { number_in 255 };

    ghost nothing = { nothing_is_no_number 255 };

    fn token(field: &[u8]) -> Token<'_> {
        Token::Number(field)
    }

    fn of(token: Token) -> Option<u8> {
        match token {
            Token::Number(part) => byte_of(part),
            _ => None,
        }
    }
}

/// A number.
impl Form for u32 {
    ghost form = { number_up_to 4294967295 };

    ghost held = { number_in 4294967295 };

    ghost nothing = { nothing_is_no_number 4294967295 };

    fn token(field: &[u8]) -> Token<'_> {
        Token::Number(field)
    }

    fn of(token: Token) -> Option<u32> {
        match token {
            Token::Number(part) => number(part, u32::MAX),
            _ => None,
        }
    }
}

/// A mark word.
impl Form for bool {
    ghost form = { mark_of };

    ghost held = { mark_in };

    ghost nothing = { refl };

    fn token(field: &[u8]) -> Token<'_> {
        Token::Mark(field)
    }

    fn of(token: Token) -> Option<bool> {
        match token {
            Token::Mark(part) => mark_of(part),
            _ => None,
        }
    }
}

/// A pair.
impl Form for Literal {
    ghost form = { pair_of };

    ghost held = { pair_in };

    ghost nothing = { nothing_is_no_pair };

    fn token(field: &[u8]) -> Token<'_> {
        Token::Pair(field)
    }

    fn of(token: Token) -> Option<Literal> {
        match token {
            Token::Pair(part) => pair_of(part),
            _ => None,
        }
    }
}

impl Placed<'_> {
    /// What the token is, or the fault of a token that is not of that form.
    pub fn formed<T: Form>(&self) -> Result<T, Fault>
        ensures { result ≡ formed self.now.line self.now.column (T.held self.now.token) }
    {
        T::of(self.token).ok_or(Fault {
            refusal: Refusal::MalformedField,
            line: self.line,
            column: self.column,
        })
    }
}
