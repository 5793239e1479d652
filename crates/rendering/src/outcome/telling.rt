//! Telling an outcome.
ghost use Rattle.std.specs.Prelude.{◌≡◌};
ghost use Rattle.rendering.specs.Outcomes.{told};
ghost use Rattle.rendering.specs.Texts.{outcome_text};

use super::{Best, Outcome, first_word, put_best, put_choices};
use crate::Text;
use crate::field::LINE_END;
use account::State;
use measure::TierThenCents;
use writing::Sink;

impl<'a> Outcome<'a> {
    /// How planning stands, with the cost of a plan if one is held.
    #[tactic(auto, unfolding(crate::specs::Texts::outcome_text))]
    pub fn new(state: State, cost: Option<TierThenCents>, plan: &'a [u8]) -> Outcome<'a>
        ensures { told result ≡ outcome_text state cost plan.now }
    {
        Outcome {
            state,
            best: cost.map(|cost| Best { cost, plan }),
        }
    }
}

impl<'a> Text for Outcome<'a> {
    ghost text = { told };

    /// The first line, and a line for each choice of the best.
    #[tactic(auto, unfolding(crate::specs::Texts::outcome_text))]
    fn put<S: Sink>(&self, sink: &mut S) {
        match self.best {
            Some(best) => {
                put_best(sink, self.state, best.cost);
                put_choices(sink, best.plan);
            }
            None => {
                sink.word(first_word(self.state, false).as_bytes());
                sink.byte(LINE_END);
            }
        }
    }
}
