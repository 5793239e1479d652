//! Carrying out what a line states.
ghost use Rattle.std.specs.Prelude.{◌≡◌, ◌||◌, [], ◌∷◌, ◌++◌};
ghost use Rattle.std.specs.Option.{option_or};
ghost use Rattle.account.specs.Accounts.{fresh};
ghost use Rattle.account.specs.Calls.{add_refusal};
ghost use Rattle.account.specs.Changes.{added};
ghost use Rattle.planner.specs.Planners.{account_of};
ghost use Rattle.rules.specs.Compose.{compose_refusal, composed};
ghost use Rattle.rules.specs.Judging.{open_refusal};
ghost use Rattle.rules.specs.Refusals.{as_result, unless_refused};
ghost use Rattle.statements.specs.Views.{pairs_of, stated_of};
ghost use Rattle.book.specs.Loads.{carried, is_rule, statement_refusal};

use arrayvec::ArrayVec;
use measure::Measure;
use planner::Planner;
use rules::{Decision, MOST_DECISIONS, Refusal, Rule};
use statements::{Parts, Statement};

/// Room for one decision more than a planner has.
const ONE_MORE: usize = MOST_DECISIONS + 1;

/// Opens a planner over its decisions and one more.
fn open_with<M: Measure>(planner: &mut Planner<M>, decision: Decision) -> Result<(), Refusal>
    ensures value { result ≡ as_result (open_refusal ((account_of planner.old).book.decisions ++ decision ∷ [])) }
    ensures after { account_of planner.new ≡ unless_refused (open_refusal ((account_of planner.old).book.decisions ++ decision ∷ [])) (account_of planner.old) (fresh ((account_of planner.old).book.decisions ++ decision ∷ [])) }
{
    let mut decisions = ArrayVec::<Decision, ONE_MORE>::new();
    // Never refused: proved.
    decisions
        .try_extend_from_slice(planner.decisions())
        .unwrap();
    decisions.push(decision);
    planner.open(decisions.as_slice())
}

/// Composes a rule of its parts, and adds it to a planner.
fn add_rule<M: Measure>(planner: &mut Planner<M>, parts: &Parts) -> Result<(), Refusal>
    ensures value { result ≡ as_result (option_or (compose_refusal parts.now.kind (pairs_of parts.now.pairs) parts.now.price) (add_refusal (account_of planner.old) (composed parts.now.kind (pairs_of parts.now.pairs) parts.now.target parts.now.price))) }
    ensures after { account_of planner.new ≡ unless_refused (option_or (compose_refusal parts.now.kind (pairs_of parts.now.pairs) parts.now.price) (add_refusal (account_of planner.old) (composed parts.now.kind (pairs_of parts.now.pairs) parts.now.target parts.now.price))) (account_of planner.old) (added M.meaning (account_of planner.old) parts.now.kind (composed parts.now.kind (pairs_of parts.now.pairs) parts.now.target parts.now.price)) }
{
    let pairs = parts.pairs.as_slice();
    planner.add(&Rule::of(parts.kind, pairs, parts.target, parts.price)?)
}

/// Whether a rule line has come by now, this statement's line counted.
// A flag, as `read_line` takes it.
pub fn has_begun(began: bool, statement: &Statement) -> bool
    ensures { result ≡ (began || is_rule (stated_of statement.now)) }
{
    // `matches!`: which variant it is decides, and a comparison would want a rule to compare with.
    began || matches!(statement, Statement::Rule(_))
}

/// Carries out what a line states: opens the planner over one decision more, or adds a rule.
pub fn carry_out<M: Measure>(planner: &mut Planner<M>, statement: &Statement) -> Result<(), Refusal>
    ensures value { result ≡ as_result (statement_refusal (account_of planner.old) (stated_of statement.now)) }
    ensures after { account_of planner.new ≡ unless_refused (statement_refusal (account_of planner.old) (stated_of statement.now)) (account_of planner.old) (carried M.meaning (account_of planner.old) (stated_of statement.now)) }
{
    match statement {
        Statement::Decision(decision) => open_with(planner, *decision),
        Statement::Rule(parts) => add_rule(planner, parts),
    }
}
