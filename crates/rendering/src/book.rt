//! The text of a book.
ghost use Rattle.std.specs.Prelude.{◌++◌};
ghost use Rattle.rendering.specs.Texts.{book_text};

use crate::Text;
use crate::text::put_all;
use rules::{Decision, Row};
use writing::Sink;

/// What a book states: its decisions, and its rules of each kind in place order.
#[derive(Clone, Copy)]
pub struct BookText<'a> {
    pub decisions: &'a [Decision],
    pub forbids: &'a [Row],
    pub activates: &'a [Row],
    pub prices: &'a [Row],
}

impl<'a> Text for BookText<'a> {
    ghost text = { λ b. book_text b.decisions.now (b.forbids.now ++ (b.activates.now ++ b.prices.now)) };

    /// A line for each.
    #[tactic(auto, using(crate::proofs::Lines::book_lines))]
    fn put<S: Sink>(&self, sink: &mut S) {
        put_all(self.decisions, sink);
        put_all(self.forbids, sink);
        put_all(self.activates, sink);
        put_all(self.prices, sink);
    }
}
