//! A complete trail beside the best.
ghost use Rattle.std.specs.Prelude.{◌≡◌};
ghost use Rattle.std.specs.Option.{option_map};
ghost use Rattle.account.specs.Changes.{if_lawful, repriced};
ghost use Rattle.account.specs.Steps.{champion, price_reason};
ghost use Rattle.rules.specs.Conditions.{from_bytes};
ghost use Rattle.rules.specs.Plans.{cost, is_lawful};
ghost use Rattle.sets.specs.Members.{members};
ghost use Rattle.planner.specs.Books.{book_of};
ghost use Rattle.planner.specs.Bests.{best_of};

use crate::best::Best;
use crate::book::Book;
use crate::reaching::reaches;
use measure::Measure;
use rules::{Kind, MOST_DECISIONS};
use scans::{SuffixCosts, is_lawful};
use sets::DecisionSet;

/// The best beside a complete trail's plan: the plan if none is held or it costs less.
fn better<M: Measure>(held: Option<Best<M>>, plan: Best<M>) -> Best<M>
    ensures { best_of result ≡ champion M.meaning (option_map best_of held) (best_of plan) }
{
    held.filter(|best| reaches(best.cost, plan.cost))
        .unwrap_or(plan)
}

/// The best that a complete trail's plan leaves, and the decisions of the price rules kept for the plan.
// Parts of the planner, here and below: a method that changed some would have to say that the rest stays.
pub fn weigh<M: Measure>(
    book: &Book,
    held: Option<Best<M>>,
    plan: &[u8; MOST_DECISIONS],
    costs: &mut SuffixCosts<M>,
) -> (Best<M>, DecisionSet)
    ensures best { best_of result.0 ≡ champion M.meaning (option_map best_of held) (record { plan = from_bytes plan.now; cost = cost M.meaning (book_of book.now).prices (from_bytes plan.now) }) }
    ensures blame { members result.1 ≡ price_reason M.meaning (book_of book.now) result.0.cost (from_bytes plan.now) }
{
    let rows = book.rows(Kind::Price);
    let cost = costs.fill(rows, plan);
    let best = better(held, Best { plan: *plan, cost });
    let blamed = costs.kept_named(rows, plan, best.cost);
    (best, blamed)
}

/// The best, its cost worked out again.
pub fn repriced_best<M: Measure>(
    book: &Book,
    held: Option<Best<M>>,
    costs: &mut SuffixCosts<M>,
) -> Option<Best<M>>
    ensures { option_map best_of result ≡ repriced M.meaning (book_of book.now).prices (option_map best_of held) }
{
    let best = held?;
    let cost = costs.fill(book.rows(Kind::Price), &best.plan);
    Some(Best { cost, ..best })
}

/// The best, if it is lawful.
pub fn still_lawful<M: Measure>(book: &Book, held: Option<Best<M>>) -> Option<Best<M>>
    ensures { option_map best_of result ≡ if_lawful (book_of book.now) (option_map best_of held) }
{
    held.filter(|best| judges_lawful(book, &best.plan))
}

/// Whether a plan is lawful.
fn judges_lawful(book: &Book, plan: &[u8; MOST_DECISIONS]) -> bool
    ensures { result ≡ is_lawful (book_of book.now) (from_bytes plan.now) }
{
    is_lawful(
        book.decisions(),
        book.rows(Kind::Forbid),
        book.rows(Kind::Activate),
        plan,
    )
}
