//! Calls of a planner, and a line of what is called and answered.
ghost use Rattle.std.specs.Prelude.{◌≡◌, []};
ghost use Rattle.account.specs.Accounts.{fresh};
ghost use Rattle.account.specs.Calls.{add as add_call, after, run as run_call, withdraw as withdraw_call};
ghost use Rattle.planner.specs.Planners.{account_of};
ghost use Rattle.rules.specs.Judging.{open_refusal};
ghost use Rattle.rules.specs.Refusals.{unless_refused};
ghost use Rattle.rules.specs.declared.row.Kind.TheVariants.{Price as Priced};

use crate::ran::Ran;
use measure::Measure;
use planner::Planner;
use rules::{Decision, Kind, Rule};
use showing::{Answer, done};
use std::fmt::Display;
use std::io;

/// A planner, and the handle by which the calls on it are printed.
#[derive(Drop)]
pub struct Calls<'a, P, M> {
    pub rt: &'a P,
    pub planner: Planner<M>,
}

impl<'a, P: Print, M: Measure> Calls<'a, P, M> {
    /// Of a planner over no decisions.
    pub fn new(rt: &'a P) -> Calls<'a, P, M>
        ensures { account_of result.planner ≡ fresh [] }
    {
        Calls {
            rt,
            planner: Planner::new(),
        }
    }

    /// Opens the planner over decisions, which the line tells as `what`.
    pub fn open(&mut self, what: impl Display + Copy, decisions: &[Decision]) -> io::Result<()>
        ensures { account_of self.new.planner ≡ unless_refused (open_refusal decisions.now) (account_of self.old.planner) (fresh decisions.now) }
    {
        let answer = done(self.planner.open(decisions));
        println!(self.rt; "open {what}: {answer}")
    }

    /// Adds a rule, which the line tells as `what`.
    pub fn add(&mut self, what: impl Display + Copy, rule: &Rule) -> io::Result<()>
        ensures { account_of self.new.planner ≡ after M.meaning (account_of self.old.planner) (add_call rule.now) }
    {
        let answer = done(self.planner.add(rule));
        println!(self.rt; "add {what}: {answer}")
    }

    /// Withdraws the price rule at a place.
    pub fn withdraw_price(&mut self, place: usize) -> io::Result<()>
        ensures { account_of self.new.planner ≡ after M.meaning (account_of self.old.planner) (withdraw_call Priced place) }
    {
        let answer = done(self.planner.withdraw(Kind::Price, place));
        println!(self.rt; "withdraw price {place}: {answer}")
    }

    /// Runs with a budget.
    pub fn run(&mut self, budget: u32) -> io::Result<()>
        ensures { account_of self.new.planner ≡ after M.meaning (account_of self.old.planner) (run_call budget) }
    {
        let answer = Answer(self.planner.run(budget).map(Ran::from));
        println!(self.rt; "run {budget}: {answer}")
    }
}
