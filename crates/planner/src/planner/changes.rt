//! The calls that change a planner's rules.
ghost use Rattle.std.specs.Prelude.{◌≡◌, ◌<◌, true, false, not, ◌||◌, length};
ghost use Rattle.account.specs.Calls.{add, after, answer, withdraw as withdraw_call};
ghost use Rattle.account.specs.Changes.{added, best_meets, held, if_lawful, reopened, repriced, withdrawn};
ghost use Rattle.planner.specs.Answers.{says_done};
ghost use Rattle.planner.specs.Bests.{unless_told};
ghost use Rattle.planner.specs.Planners.{account_of};

use crate::planner::Planner;
use crate::weighing::{repriced_best, still_lawful};
use account::State;
use measure::Measure;
use rules::{Kind, MOST_RULES, Refusal, Row, Rule, check_row};
use tables::ShapedRow;

impl<M: Measure> Planner<M> {
    /// Puts a rule last of its kind, and keeps what still holds. Refuses an unknown decision in its pairs or target,
    /// then an unknown value, then when 256 of the kind are held.
    pub fn add(&mut self, rule: &Rule) -> Result<(), Refusal>
        ensures value { says_done result ≡ answer M.meaning (account_of self.old) (add rule.now) }
        ensures after { account_of self.new ≡ after M.meaning (account_of self.old) (add rule.now) }
    {
        let row = rule.row();
        check_row(self.book.decisions(), &row)?;
        if self.book.len(row.kind) >= MOST_RULES {
            return Err(Refusal::TableFull);
        }
        let met = self.best_meets(&row);
        self.book.add(ShapedRow { row });
        // By kind: each keeps something else.
        match row.kind {
            Kind::Forbid => self.reopen_forbidding(met),
            Kind::Activate => self.reopen_rejudged(),
            Kind::Price => self.reopen_repriced(!met),
        }
        Ok(())
    }

    /// Takes out the rule of a kind at a place, and keeps what still holds. Refuses when no rule is there.
    pub fn withdraw(&mut self, kind: Kind, place: usize) -> Result<(), Refusal>
        ensures value { says_done result ≡ answer M.meaning (account_of self.old) (withdraw_call kind place) }
        ensures after { account_of self.new ≡ after M.meaning (account_of self.old) (withdraw_call kind place) }
    {
        if place >= self.book.len(kind) {
            return Err(Refusal::NoSuchRule);
        }
        self.book.remove(kind, place);
        // By kind: each keeps something else.
        match kind {
            Kind::Forbid => self.reopen_afresh(),
            Kind::Activate => self.reopen_rejudged(),
            Kind::Price => self.reopen_repriced(false),
        }
        Ok(())
    }

    /// Whether a best is held and meets a rule.
    fn best_meets(&self, row: &Row) -> bool
        ensures { result ≡ best_meets (account_of self.now).best row.now }
    {
        self.best.is_some_and(|best| row.met(&best.plan))
    }

    /// Empties the trail and opens the state; of the exclusions those with an empty reason stay, and of these the ones
    /// that rest on the best only if `resting`.
    // A flag, here and below, as `Exclusions::keep_empty` takes it.
    fn reopen(&mut self, resting: bool)
        ensures { account_of self.new ≡ reopened (account_of self.old) (account_of self.old).book (account_of self.old).best (λ e. resting || not e.rests) }
    {
        self.trail.clear();
        self.exclusions.keep_empty(self.book.count(), resting);
        self.state = State::Open;
    }

    /// Reopens after a forbid rule more: if the best met it, the best goes, and what rested on it.
    fn reopen_forbidding(&mut self, met: bool)
        ensures { account_of self.new ≡ reopened (account_of self.old) (account_of self.old).book (unless_told met (account_of self.old).best) (λ e. not met || not e.rests) }
    {
        if met {
            self.best = None;
        }
        self.reopen(!met);
    }

    /// Reopens with no exclusion.
    fn reopen_afresh(&mut self)
        ensures { account_of self.new ≡ reopened (account_of self.old) (account_of self.old).book (account_of self.old).best (λ e. false) }
    {
        self.exclusions.clear();
        self.reopen(true);
    }

    /// Reopens with no exclusion, and with the best only if it is still lawful.
    fn reopen_rejudged(&mut self)
        ensures { account_of self.new ≡ reopened (account_of self.old) (account_of self.old).book (if_lawful (account_of self.old).book (account_of self.old).best) (λ e. false) }
    {
        self.best = still_lawful(&self.book, self.best);
        self.reopen_afresh();
    }

    /// Reopens with the best's cost worked out again.
    fn reopen_repriced(&mut self, resting: bool)
        ensures { account_of self.new ≡ reopened (account_of self.old) (account_of self.old).book (repriced M.meaning (account_of self.old).book.prices (account_of self.old).best) (λ e. resting || not e.rests) }
    {
        self.best = repriced_best(&self.book, self.best, &mut self.costs);
        self.reopen(resting);
    }
}
