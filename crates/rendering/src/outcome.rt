//! The text of an outcome.
ghost use Rattle.std.specs.Prelude.{◌≡◌, true, false, [], ◌∷◌, ◌++◌};
ghost use Rattle.std.specs.List.{fold};
ghost use Rattle.rendering.specs.Texts.{choice_line, choice_lines, cost_fields, ended, outcome_word, spaced};

use crate::Text;
use crate::field::{LINE_END, put_field};
use account::State;
use measure::TierThenCents;
use writing::Sink;

mod telling;

/// A plan, a byte for each decision and 0 where it is idle, and its cost.
#[derive(Clone, Copy)]
struct Best<'a> {
    cost: TierThenCents,
    plan: &'a [u8],
}

/// How planning stands, and the best if one is held.
#[derive(Clone, Copy)]
pub struct Outcome<'a> {
    state: State,
    best: Option<Best<'a>>,
}

/// The first word of an outcome, by whether a best is held. Two values say it, so it is the text of neither.
fn first_word(state: State, best: bool) -> &'static str
    ensures { result.now ≡ outcome_word state best }
{
    // The words again: `Display` writes to a formatter, and this to a sink.
    match (state, best) {
        (State::Open, _) => "open",
        (State::Settled, true) => "settled",
        (State::Settled, false) => "none",
    }
}

/// Puts the line of a choice: a decision and its value.
#[tactic(auto, unfolding(crate::specs::Texts::choice_line))]
fn put_choice<S: Sink>(sink: &mut S, decision: usize, value: u8)
    ensures { sink.new ≡ fold S.after sink.old (choice_line decision value ++ 10 ∷ []) }
{
    decision.put(sink);
    put_field(sink, &u64::from(value));
    sink.byte(LINE_END);
}

/// Puts a line for each chosen decision of a plan.
#[tactic(auto, using(crate::proofs::Lines::chosen_more, crate::proofs::Lines::idle_more))]
fn put_choices<S: Sink>(sink: &mut S, plan: &[u8])
    ensures { sink.new ≡ fold S.after sink.old (ended (choice_lines 0 plan.now)) }
{
    for (decision, value) in plan.iter().enumerate() {
        if 0 < *value {
            put_choice(sink, decision, *value);
        }
    }
}

/// Puts the first line of an outcome that holds a best, with its cost.
fn put_best<S: Sink>(sink: &mut S, state: State, cost: TierThenCents)
    ensures { sink.new ≡ fold S.after sink.old ((outcome_word state true ++ spaced (cost_fields cost)) ++ 10 ∷ []) }
{
    sink.word(first_word(state, true).as_bytes());
    put_field(sink, &u64::from(cost.first.level));
    put_field(sink, &cost.second.sum);
    sink.byte(LINE_END);
}
