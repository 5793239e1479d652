//! Which decision a step picks, and what supports it.
ghost use Rattle.std.specs.Prelude.{◌≡◌, ◌<◌, not, ◌&&◌, ◌||◌, length, IfSome, nat_lt};
ghost use Rattle.std.specs.Option.{option_map};
ghost use Rattle.account.specs.Steps.{pick, prefer, support, waits};
ghost use Rattle.rules.specs.Conditions.{from_bytes};
ghost use Rattle.rules.specs.Plans.{on_at};
ghost use Rattle.sets.specs.Members.{members};
ghost use Rattle.planner.specs.Books.{IsDomain, book_of};

use crate::book::Book;
use rules::{Decision, EachRow, Kind, MOST_DECISIONS, enabled, value_of};
use scans::enabler;
use sets::DecisionSet;
use tables::Domain;

/// Whether a decision is marked on.
fn is_on(decisions: &[Decision], decision: u8) -> bool
    ensures { result ≡ on_at decisions.now decision }
{
    decisions
        .get(usize::from(decision))
        .is_some_and(|decision| decision.on)
}

/// Whether a decision is off the plan, and marked on or enabled.
fn is_waiting(decisions: &[Decision], targets: DecisionSet, plan: &[u8], decision: u8) -> bool
    ensures { result ≡ (not (nat_lt 0 (from_bytes plan.now decision)) && (on_at decisions.now decision || members targets decision)) }
{
    value_of(plan, decision) == 0 && (is_on(decisions, decision) || targets.has(decision))
}

/// The domain of the decision that a step picks: of those that wait, the one of lowest rank, then lowest number.
pub fn pick_decision(book: &Book, ranks: &[u8; MOST_DECISIONS], plan: &[u8]) -> Option<Domain>
    ensures picked { option_map (λ d. d.decision) result ≡ pick (from_bytes ranks.now) (waits (book_of book.now) (from_bytes plan.now)) (length (book_of book.now).decisions) }
    ensures domain { IfSome result (IsDomain (book_of book.now)) }
{
    let decisions = book.decisions();
    let targets = enabled::<EachRow>(book.rows(Kind::Activate), plan);
    (0..book.count())
        .filter(|decision| is_waiting(decisions, targets, plan, *decision))
        .min_by_key(|decision| value_of(ranks, *decision))
        .and_then(|decision| book.domain(decision))
}

/// The support of a decision: nobody if it is marked on, else what the first met activate rule with that target names.
pub fn support_of(book: &Book, plan: &[u8], decision: u8) -> DecisionSet
    ensures { members result ≡ support (book_of book.now) (from_bytes plan.now) decision }
{
    if is_on(book.decisions(), decision) {
        return DecisionSet::empty();
    }
    enabler(book.rows(Kind::Activate), plan, decision)
}
