//! The opening of a planner, and the calls that change none of its rules.
ghost use Rattle.std.specs.Prelude.{◌≡◌, ◌≤◌, true, false, List, [], length, is_ok, None, IfOk, IfErr};
ghost use Rattle.account.specs.Accounts.{fresh};
ghost use Rattle.account.specs.Calls.{Call, after, answer, best, exclusion, rank as rank_call, run, unexcluded};
ghost use Rattle.account.specs.Changes.{held};
ghost use Rattle.account.specs.Law.{PlanningLaw};
ghost use Rattle.rules.specs.Judging.{open_refusal, sized};
ghost use Rattle.rules.specs.Refusals.{as_result, unless_refused};
ghost use Rattle.rules.specs.declared.refusal.Refusal.TheVariants.{UnknownDecision};
ghost use Rattle.tables.specs.Shapes.{all_shaped};
ghost use Rattle.planner.specs.Books.{IsDomain};
ghost use Rattle.planner.specs.Answers.{says_best, says_counted, says_done, says_excluded, says_ran};
ghost use Rattle.planner.specs.Planners.{account_of, is_open};

use crate::book::Book;
use crate::planner::Planner;
use account::State;
use measure::Measure;
use rules::{Decision, Kind, MOST_DECISIONS, Refusal, Row};
use scans::SuffixCosts;
use sets::DecisionSet;
use tables::{Domain, Exclusions, Trail};

/// The most steps that a run may be given.
const MOST_STEPS: u32 = 1_000_000;

impl<M: Measure> Planner<M> {
    /// A planner over no decisions.
    pub fn new() -> Planner<M>
        ensures { account_of result ≡ fresh [] }
    {
        Planner {
            book: Book::new(),
            ranks: [0; MOST_DECISIONS],
            trail: Trail::new(),
            exclusions: Exclusions::new(),
            best: None,
            state: State::Open,
            costs: SuffixCosts::new(),
        }
    }

    /// Makes this a new planner over decisions. Refuses more than 64, then a size outside 1 to 16; it then stays as it
    /// was. Of a planner opened so, whatever is called on it, the planning law holds.
    pub fn open(&mut self, decisions: &[Decision]) -> Result<(), Refusal>
        ensures value { result ≡ as_result (open_refusal decisions.now) }
        ensures after { account_of self.new ≡ unless_refused (open_refusal decisions.now) (account_of self.old) (fresh decisions.now) }
        ensures law { open_refusal decisions.now ≡ None → (calls others : List Call) → PlanningLaw M.meaning decisions.now calls others }
    {
        self.book.open(decisions)?;
        self.ranks = [0; MOST_DECISIONS];
        self.trail.clear();
        self.exclusions.clear();
        self.best = None;
        self.state = State::Open;
        Ok(())
    }

    /// The decisions that the planner is opened over.
    // Facts of a slice, here and below, told again where it is handed on: no type of a slice keeps them.
    pub fn decisions(&self) -> &[Decision]
        ensures value { result.now ≡ (account_of self.now).book.decisions }
        ensures few { length result.now ≤ 64 }
        ensures sizes { sized result.now ≡ true }
    {
        self.book.decisions()
    }

    /// The rules of a kind that the planner holds, in place order, as plain rows.
    pub fn rules(&self, kind: Kind) -> &[Row]
        ensures value { result.now ≡ held (account_of self.now).book kind }
        ensures few { length result.now ≤ 256 }
        ensures shapes { all_shaped result.now ≡ true }
    {
        self.book.rows(kind)
    }

    /// The domain of a decision. Refuses an unknown decision.
    fn domain(&self, decision: u8) -> Result<Domain, Refusal>
        ensures known { IfOk result (λ d. (d.decision ≡ decision) × IsDomain (account_of self.now).book d) }
        ensures refused { IfErr result (λ e. (e ≡ UnknownDecision) × (length (account_of self.now).book.decisions ≤ decision)) }
    {
        self.book.domain(decision).ok_or(Refusal::UnknownDecision)
    }

    /// Sets the rank of a decision. Refuses an unknown decision.
    pub fn rank(&mut self, decision: u8, rank: u8) -> Result<(), Refusal>
        ensures value { says_done result ≡ answer M.meaning (account_of self.old) (rank_call decision rank) }
        ensures after { account_of self.new ≡ after M.meaning (account_of self.old) (rank_call decision rank) }
    {
        let domain = self.domain(decision)?;
        self.ranks[usize::from(domain.decision)] = rank;
        Ok(())
    }

    /// Makes as many steps as the budget, fewer only if then settled, and answers their number and the state. Refuses
    /// a budget over 1,000,000.
    pub fn run(&mut self, budget: u32) -> Result<(u32, State), Refusal>
        ensures value { says_ran result ≡ answer M.meaning (account_of self.old) (run budget) }
        ensures after { account_of self.new ≡ after M.meaning (account_of self.old) (run budget) }
    {
        if budget > MOST_STEPS {
            return Err(Refusal::BudgetTooLarge);
        }
        for made in 0..budget {
            if !self.is_open() {
                return Ok((made, self.state));
            }
            self.step();
        }
        Ok((budget, self.state))
    }

    /// Whether steps can be made.
    fn is_open(&self) -> bool
        ensures { result ≡ is_open (account_of self.now).state }
    {
        self.state == State::Open
    }

    /// The state, and if a best is held its cost; the best's plan is then written, a byte for each decision: its
    /// value, or 0 if it is idle. Refuses a buffer shorter than the decisions, which then stays as it was.
    pub fn best(&self, buffer: &mut [u8]) -> Result<(State, Option<M>), Refusal>
        ensures value { says_best result buffer.new ≡ answer M.meaning (account_of self.now) (best buffer.old) }
        ensures kept { is_ok result ≡ false → buffer.new ≡ buffer.old }
    {
        let count = self.decisions().len();
        if buffer.len() < count {
            return Err(Refusal::ShortPlan);
        }
        if let Some(best) = self.best {
            let front = &mut buffer[0..count];
            front.copy_from_slice(&best.plan[0..count]);
        }
        Ok((self.state, self.best_cost()))
    }

    /// Why a value of a decision is excluded, and whether that rests on the best; none if it is not. Refuses an unknown
    /// decision, then an unknown value.
    // A pair in an `Option`, as `Exclusions::get` answers it.
    pub fn exclusion(&self, decision: u8, value: u8) -> Result<Option<(DecisionSet, bool)>, Refusal>
        ensures { says_excluded result ≡ answer M.meaning (account_of self.now) (exclusion decision value) }
    {
        let domain = self.domain(decision)?;
        if !(1..=domain.size).contains(&value) {
            return Err(Refusal::UnknownValue);
        }
        Ok(self.exclusions.get(decision, value))
    }

    /// How many values of a decision are not excluded. Refuses an unknown decision.
    pub fn unexcluded(&self, decision: u8) -> Result<u8, Refusal>
        ensures { says_counted result ≡ answer M.meaning (account_of self.now) (unexcluded decision) }
    {
        let domain = self.domain(decision)?;
        Ok(self.exclusions.count_free(domain))
    }
}
