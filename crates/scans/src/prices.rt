//! What price rules cost, from each place on, and which of them are kept.
ghost use Rattle.std.specs.Prelude.{◌≡◌, ◌≤◌, [], not, ◌&&◌, length};
ghost use Rattle.account.specs.Steps.{kept, named_in};
ghost use Rattle.rules.specs.Conditions.{Plan, from_bytes, met};
ghost use Rattle.rules.specs.Plans.{cost};
ghost use Rattle.sets.specs.Members.{members};
ghost use Rattle.scans.specs.Known.{Known};
ghost use Rattle.scans.specs.Suffixes.{Suffixes, priced};

use crate::names::named;
use measure::Measure;
use rules::{MOST_RULES, Row};
use sets::DecisionSet;

/// One place more than there can be rules.
const PLACES: usize = MOST_RULES + 1;

/// What the price rules from each place on cost a plan; past the last stands neutral.
#[derive(Drop)]
pub struct SuffixCosts<M> {
    after: [M; PLACES],
}

impl<M: Measure> SuffixCosts<M> {
    /// What no rules cost.
    pub fn new() -> SuffixCosts<M>
        ensures { (p : Plan) → Suffixes M.meaning [] p result.after 0 }
    {
        SuffixCosts {
            after: [M::neutral(); PLACES],
        }
    }

    /// Works out what the rows from each place on cost a plan, and answers what all of them do.
    // Asked of slices, here and below: no type of a slice keeps its length or what its rows name.
    pub fn fill(&mut self, rows: &[Row], plan: &[u8]) -> M
        requires { length rows.now ≤ 256 }
        ensures total { result ≡ cost M.meaning rows.now (from_bytes plan.now) }
        ensures places { Suffixes M.meaning rows.now (from_bytes plan.now) self.new.after 0 }
    {
        let mut cost = M::neutral();
        self.after[rows.len()] = cost;
        // One loop over the rows with their places, as this pass is to be written; so is the one below.
        for (i, row) in rows.iter().enumerate().rev() {
            cost = price_before(row, plan, cost);
            self.after[i] = cost;
        }
        cost
    }

    /// The decisions that the kept price rules name: in place order, one is dropped if those kept before it and those
    /// met after it still reach the best's cost.
    pub fn kept_named(&self, rows: &[Row], plan: &[u8], best: M) -> DecisionSet
        requires few { length rows.now ≤ 256 }
        requires known { Known rows.now }
        requires costs { Suffixes M.meaning rows.now (from_bytes plan.now) self.now.after 0 }
        ensures { members result ≡ named_in (kept M.meaning best M.meaning.neutral rows.now (from_bytes plan.now)) }
    {
        let mut before = M::neutral();
        let mut set = DecisionSet::empty();
        for (i, row) in rows.iter().enumerate() {
            if is_kept(row, plan, best, before, self.after[i + 1]) {
                before = before.join(M::read(row.price));
                set = set.union(named(row));
            }
        }
        set
    }
}

/// What a row and what comes after it cost a plan.
fn price_before<M: Measure>(row: &Row, plan: &[u8], later: M) -> M
    ensures { result ≡ priced M.meaning (from_bytes plan.now) row.now later }
{
    if row.met(plan) {
        M::read(row.price).join(later)
    } else {
        later
    }
}

/// Whether a row is met, and what is kept before it and met after it does not reach the best's cost.
fn is_kept<M: Measure>(row: &Row, plan: &[u8], best: M, before: M, later: M) -> bool
    ensures { result ≡ (met (from_bytes plan.now) row.now && not (M.meaning.at_most best (M.meaning.joins before later))) }
{
    row.met(plan) && !best.at_most(before.join(later))
}
