//! The lines of rules.
ghost use Rattle.std.specs.Prelude.{◌≡◌, [], ◌∷◌, ◌++◌};
ghost use Rattle.std.specs.List.{fold};
ghost use Rattle.rendering.specs.Texts.{head_fields, letter, pair_text, rule_line, spaced};

use crate::Text;
use crate::field::{LINE_END, put_field};
use crate::text::put_all;
use rules::{Kind, Literal, Row};
use statements::LineKind;
use writing::Sink;

impl Text for Kind {
    ghost text = { λ k. letter k ∷ [] };

    /// The first byte of a rule's line.
    fn put<S: Sink>(&self, sink: &mut S) {
        let kind = match *self {
            Kind::Forbid => LineKind::Forbid,
            Kind::Activate => LineKind::Activate,
            Kind::Price => LineKind::Price,
        };
        sink.byte(kind.letter());
    }
}

/// Puts what stands before a rule's pairs: of an activate rule its target, of a price rule its tier and cents.
fn put_head<S: Sink>(sink: &mut S, row: &Row)
    ensures { sink.new ≡ fold S.after sink.old (spaced (head_fields row.now.kind row.now.target row.now.price)) }
{
    match row.kind {
        Kind::Forbid => {}
        Kind::Activate => put_field(sink, &u64::from(row.target)),
        Kind::Price => {
            put_field(sink, &u64::from(row.price.tier));
            put_field(sink, &u64::from(row.price.cents));
        }
    }
}

impl Text for Literal {
    ghost text = { λ l. 32 ∷ pair_text l };

    /// A space and the pair.
    #[tactic(auto, unfolding(crate::specs::Texts::pair_text))]
    fn put<S: Sink>(&self, sink: &mut S) {
        // The pair again: `Display` writes to a formatter, and this to a sink.
        put_field(sink, &u64::from(self.decision));
        sink.byte(b'=');
        sink.number(u64::from(self.value));
    }
}

impl Text for Row {
    ghost text = { λ r. rule_line r ++ 10 ∷ [] };

    /// The rule's line.
    #[tactic(auto, using(crate::proofs::Lines::row_line))]
    fn put<S: Sink>(&self, sink: &mut S) {
        self.kind.put(sink);
        put_head(sink, self);
        put_all(self.condition(), sink);
        sink.byte(LINE_END);
    }
}
