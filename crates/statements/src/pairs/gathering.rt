//! Gathering the pairs of a line.
ghost use Rattle.std.specs.Prelude.{◌≡◌, [], ◌∷◌, ◌++◌, take};
ghost use Rattle.statements.specs.Views.{pairs_of};

use crate::Pairs;
use rules::Literal;

impl Pairs {
    /// No pair.
    pub fn new() -> Pairs
        ensures { pairs_of result ≡ [] }
    {
        Pairs {
            list: [Literal::default(); 5],
            count: 0,
        }
    }

    /// The pairs.
    pub fn as_slice(&self) -> &[Literal]
        ensures { result.now ≡ pairs_of self.now }
    {
        &self.list[0..self.count]
    }

    /// Puts one more pair behind the others, unless there are five.
    pub fn push(&mut self, pair: Literal)
        ensures { pairs_of self.new ≡ take 5 (pairs_of self.old ++ pair ∷ []) }
    {
        if self.count < 5 {
            self.list[self.count] = pair;
            self.count += 1;
        }
    }
}
