//! The line of a fault.
ghost use Rattle.std.specs.Prelude.{◌≡◌};
ghost use Rattle.rendering.specs.Texts.{fault_text, layer_text};

use crate::Text;
use crate::field::{LINE_END, put_field};
use rules::Layer;
use statements::Fault;
use writing::Sink;

impl Text for Layer {
    ghost text = { layer_text };

    /// The word of a layer.
    fn put<S: Sink>(&self, sink: &mut S) {
        sink.word(match *self {
            Layer::Text => b"text",
            Layer::Rule => b"rule",
            Layer::Planner => b"planner",
        });
    }
}

impl Text for Fault {
    ghost text = { λ f. fault_text f.refusal f.line f.column };

    /// The refusal, and the line and column that it falls on.
    #[tactic(auto, unfolding(crate::specs::Texts::fault_line))]
    fn put<S: Sink>(&self, sink: &mut S) {
        sink.word(b"refused");
        put_field(sink, &u64::from(self.refusal.number()));
        put_field(sink, &self.refusal.layer());
        put_field(sink, &self.line);
        put_field(sink, &self.column);
        sink.byte(LINE_END);
    }
}
