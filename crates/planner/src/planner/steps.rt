//! The steps of the search.
ghost use Rattle.std.specs.Prelude.{◌≡◌};
ghost use Rattle.account.specs.Accounts.{chosen};
ghost use Rattle.account.specs.Steps.{blame, conclude, extend, step};
ghost use Rattle.sets.specs.Members.{members};
ghost use Rattle.planner.specs.Bests.{cost_held};
ghost use Rattle.planner.specs.Books.{IsDomain};
ghost use Rattle.planner.specs.Planners.{account_of};

use crate::pick::{pick_decision, support_of};
use crate::planner::Planner;
use crate::trials::Trials;
use crate::weighing::weigh;
use account::State;
use measure::Measure;
use sets::DecisionSet;
use tables::{Choice, Domain};

impl<M: Measure> Planner<M> {
    /// Retreats from a blame: the latest blamed entry leaves, with what rested on it for support, and its value is
    /// excluded by the rest of the blame. If nobody is blamed, the planner is settled.
    // Reason and mark, as `Exclusions::get` answers them.
    fn retreat(&mut self, blamed: DecisionSet, rests: bool)
        ensures { account_of self.new ≡ blame (account_of self.old) (members blamed) rests }
    {
        match self.trail.retreat(blamed) {
            Some(retreat) => {
                let culprit = retreat.culprit;
                self.exclusions.forget(retreat.left);
                let choice = Choice {
                    decision: culprit.decision,
                    value: culprit.value,
                };
                let reason = blamed.without(culprit.decision);
                self.exclusions.put(choice, reason, rests);
            }
            None => self.state = State::Settled,
        }
    }

    /// The best's cost, if one is held.
    pub(super) fn best_cost(&self) -> Option<M>
        ensures { result ≡ cost_held (account_of self.now).best }
    {
        self.best.map(|best| best.cost)
    }

    /// A step that picks the decision of a domain: its values are tested, and the smallest free one enters the trail,
    /// or all are excluded and the step is a dead end.
    fn extend(&mut self, domain: Domain)
        requires known { IsDomain (account_of self.old).book domain }
        requires idle { chosen (account_of self.old).trail domain.decision ≡ 0 }
        ensures { account_of self.new ≡ extend M.meaning (account_of self.old) domain.decision }
    {
        let best = self.best_cost();
        let decision = domain.decision;
        let plan = self.trail.plan();
        let trials = Trials {
            book: &self.book,
            best,
            domain,
        };
        trials.try_values(plan, &mut self.costs, &mut self.exclusions);
        let support = support_of(&self.book, plan, decision);
        match self.exclusions.smallest_free(domain) {
            Some(value) => self.trail.push(Choice { decision, value }, support),
            None => {
                let blamed = self.exclusions.reasons_of(domain).union(support);
                let rests = self.exclusions.any_rests(domain);
                self.retreat(blamed, rests);
            }
        }
    }

    /// A step on a complete trail: it becomes the best if none is held or it costs less, and is retreated from.
    fn conclude(&mut self)
        ensures { account_of self.new ≡ conclude M.meaning (account_of self.old) }
    {
        let plan = self.trail.plan();
        let (best, blamed) = weigh(&self.book, self.best, plan, &mut self.costs);
        self.best = Some(best);
        self.retreat(blamed, true);
    }

    /// One step of the search.
    pub(crate) fn step(&mut self)
        ensures { account_of self.new ≡ step M.meaning (account_of self.old) }
    {
        match pick_decision(&self.book, &self.ranks, self.trail.plan()) {
            Some(domain) => self.extend(domain),
            None => self.conclude(),
        }
    }
}
