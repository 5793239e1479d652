//! The answers of calls.
ghost use Rattle.std.specs.Prelude.{◌≡◌, IsOk, MatchResult, codes};
ghost use Rattle.showing.specs.Texts.{answer_text};

use rules::Refusal;
use std::fmt;

/// What a call answers, or why it is refused.
#[derive(Clone, Copy)]
pub struct Answer<T>(pub Result<T, Refusal>);

impl<T: fmt::Display> fmt::Display for Answer<T> {
    ghost output = { λ answer. answer_text T.output answer.0 };

    fn fmt<W: fmt::Write>(&self, f: &mut fmt::Formatter<W>) -> fmt::Result {
        match &self.0 {
            Ok(value) => value.fmt(f),
            Err(refusal) => refusal.fmt(f),
        }
    }
}

/// The answer of a call that has no more to say than `done`.
pub fn done(answer: Result<(), Refusal>) -> Answer<&'static str>
    ensures { MatchResult result.0 (λ word. IsOk answer × (word.now ≡ codes "done")) (λ refusal. answer ≡ Err refusal) }
{
    Answer(answer.map(|()| "done"))
}
