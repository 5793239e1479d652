//! The lines of decisions.
ghost use Rattle.std.specs.Prelude.{◌≡◌, [], ◌∷◌, ◌++◌};
ghost use Rattle.rendering.specs.Texts.{decision_line, mark_text};

use crate::Text;
use crate::field::{LINE_END, put_field};
use rules::Decision;
use statements::LineKind;
use writing::Sink;

impl Text for bool {
    ghost text = { mark_text };

    /// The word of a mark.
    fn put<S: Sink>(&self, sink: &mut S) {
        // The words again: a book is read by matching them, and they are written to a sink here.
        sink.word(if *self { b"on" } else { b"off" });
    }
}

impl Text for Decision {
    ghost text = { λ d. decision_line d ++ 10 ∷ [] };

    /// The decision's line.
    #[tactic(auto, unfolding(crate::specs::Texts::decision_line))]
    fn put<S: Sink>(&self, sink: &mut S) {
        sink.byte(LineKind::Decision.letter());
        put_field(sink, &u64::from(self.size));
        put_field(sink, &self.on);
        sink.byte(LINE_END);
    }
}
