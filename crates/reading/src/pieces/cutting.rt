//! Cutting a text at a byte.
ghost use Rattle.std.specs.Prelude.{◌≡◌, ◌+◌, ◌^◌, ◌<◌, ◌≤◌, length, ◌==◌, option_map};
ghost use Rattle.std.specs.Iterator.{item_count};
ghost use Rattle.std.specs.List.{position};
ghost use Rattle.reading.specs.Cursors.{Taken, column, left, left_at};
ghost use Rattle.reading.specs.Pieces.{halves, is_nil};

use crate::pieces::{Piece, Pieces};

/// The place of the first `at` in a text, if there is one.
fn place_of(text: &[u8], at: u8) -> Option<usize>
    ensures { result ≡ position (λ x. x == at) text.now }
{
    text.iter().position(|byte| *byte == at)
}

/// What stands in a text before the first `at` and what behind it, if there is one.
pub fn split_once(text: &[u8], at: u8) -> Option<(&[u8], &[u8])>
    ensures { option_map (λ p. (p.0.now, p.1.now)) result ≡ halves at text.now }
{
    let place = place_of(text, at)?;
    Some((&text[..place], &text[place + 1..]))
}

impl<'a> Pieces<'a> {
    /// The pieces of a text from a place on, cut at each byte `at`.
    #[tactic(auto, using(crate::proofs::Cuts::few_left))]
    pub fn starting(text: &'a [u8], at: u8, place: usize) -> Pieces<'a>
        requires { place ≤ length text.now + 1 }
        ensures left { left result ≡ left_at at text.now place }
        ensures column { column result ≡ place + 1 }
        ensures few { length (left result) < 2 ^ 64 }
    {
        Pieces { text, at, place }
    }

    /// The column of the next piece.
    pub fn column(&self) -> usize
        ensures { result ≡ column self.now }
    {
        self.place + 1
    }

    /// Whether no piece is to come.
    #[tactic(auto, using(crate::proofs::Cuts::passed))]
    pub fn is_empty(&self) -> bool
        ensures { result ≡ is_nil (left self.now) }
    {
        self.place > self.text.len()
    }
}

impl<'a> Iterator for Pieces<'a> {
    type Item = Piece<'a>;

    ghost next_gives = { Taken };

    ghost remaining = { item_count left };

    /// The next piece, if there is one.
    fn next(&mut self) -> Option<Piece<'a>> {
        let rest = self.text.get(self.place..)?;
        let bytes = split_once(rest, self.at).map_or(rest, |(first, _)| first);
        let column = self.column();
        self.place += bytes.len() + 1;
        Some(Piece { bytes, column })
    }
}
