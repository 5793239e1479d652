//! The tests of a decision's values.
ghost use Rattle.std.specs.Prelude.{◌≡◌, ◌<◌, ◌≤◌, ◌&&◌, Some, ◌==◌};
ghost use Rattle.rules.specs.Conditions.{from_bytes};
ghost use Rattle.tables.specs.Excluded.{as_exclusion, exclusions_of};
ghost use Rattle.planner.specs.Books.{book_of};
ghost use Rattle.planner.specs.Trials.{by_cost, or_tried, tried_to, try_plan};

use crate::book::Book;
use crate::reaching::reaches;
use measure::Measure;
use rules::{Kind, MOST_DECISIONS};
use scans::{SuffixCosts, first_met, named};
use sets::DecisionSet;
use tables::{Choice, Domain, Exclusions};

/// What the values of a decision are tested by: the rules, and the best's cost if one is held.
// Costs and exclusions are no fields, since methods change them and would have to say that the rest stays; the plan
// differs at each value.
#[derive(Clone, Copy)]
pub struct Trials<'a, M> {
    pub book: &'a Book,
    pub best: Option<M>,
    pub domain: Domain,
}

impl<M: Measure> Trials<'_, M> {
    /// Why a plan is excluded by its cost, as far as the decision goes: it reaches the best's, for the other decisions
    /// of the kept price rules.
    // A pair in an `Option`, here and below, as `Exclusions::get` answers it.
    fn try_cost(
        &self,
        best: M,
        plan: &[u8],
        costs: &mut SuffixCosts<M>,
    ) -> Option<(DecisionSet, bool)>
        ensures { as_exclusion result ≡ by_cost M.meaning (book_of self.now.book.now) self.now.domain.decision (from_bytes plan.now) (Some best) }
    {
        let rows = self.book.rows(Kind::Price);
        let cost = costs.fill(rows, plan);
        if !reaches(best, cost) {
            return None;
        }
        let reason = costs.kept_named(rows, plan, best);
        Some((reason.without(self.domain.decision), true))
    }

    /// Why a plan is excluded, as far as the decision goes: by the first forbid rule that it meets, else by its cost.
    fn try_plan(&self, plan: &[u8], costs: &mut SuffixCosts<M>) -> Option<(DecisionSet, bool)>
        ensures { as_exclusion result ≡ try_plan M.meaning (book_of self.now.book.now) self.now.best self.now.domain.decision (from_bytes plan.now) }
    {
        if let Some(row) = first_met(self.book.rows(Kind::Forbid), plan) {
            return Some((named(row).without(self.domain.decision), false));
        }
        let best = self.best?;
        self.try_cost(best, plan, costs)
    }

    /// Tests a value, in a plan with it in, unless it is excluded already.
    fn try_value(
        &self,
        value: u8,
        plan: &[u8],
        costs: &mut SuffixCosts<M>,
        exclusions: &mut Exclusions,
    )
        requires low { 1 ≤ value }
        requires high { value ≤ self.now.domain.size }
        ensures { exclusions_of exclusions.new ≡ (λ x w. or_tried (exclusions_of exclusions.old x w) (x == self.now.domain.decision && w == value) (try_plan M.meaning (book_of self.now.book.now) self.now.best self.now.domain.decision (from_bytes plan.now))) }
    {
        if exclusions.get(self.domain.decision, value).is_some() {
            return;
        }
        if let Some((reason, rests)) = self.try_plan(plan, costs) {
            let choice = Choice {
                decision: self.domain.decision,
                value,
            };
            exclusions.put(choice, reason, rests);
        }
    }

    /// Tests the domain's values that are not excluded, each in the plan.
    pub fn try_values(
        &self,
        plan: &[u8; MOST_DECISIONS],
        costs: &mut SuffixCosts<M>,
        exclusions: &mut Exclusions,
    )
        ensures { exclusions_of exclusions.new ≡ tried_to M.meaning (book_of self.now.book.now) self.now.best (from_bytes plan.now) (exclusions_of exclusions.old) self.now.domain.decision self.now.domain.size }
    {
        let mut trial = *plan;
        for v in 1..=self.domain.size {
            trial[usize::from(self.domain.decision)] = v;
            self.try_value(v, &trial, costs, exclusions);
        }
    }
}
