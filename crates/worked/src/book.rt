//! Decisions and the rules over them, and those of the worked book.
ghost use Rattle.std.specs.Prelude.{◌≡◌, IsOkAnd, map};
ghost use Rattle.account.specs.Worked.{decisions as worked_decisions, rules as worked_rules};
ghost use Rattle.worked.specs.Added.{rows_added};

use crate::parts::{activate, charge, forbid, pair};
use rules::{Decision, Refusal, Row, Rule};

/// Decisions, and rules over them.
#[derive(Clone, Copy)]
pub struct Book {
    pub decisions: [Decision; 3],
    pub rules: [Rule; 12],
}

impl Book {
    /// The worked book: the one of the worked cases.
    pub fn worked() -> Result<Book, Refusal>
        ensures decisions { IsOkAnd result (λ book. book.decisions ≡ worked_decisions) }
        ensures rules { IsOkAnd result (λ book. map (λ rule. rule.row) book.rules ≡ rows_added worked_rules) }
    {
        Ok(Book {
            decisions: [
                Decision { size: 3, on: true },
                Decision { size: 2, on: false },
                Decision { size: 3, on: false },
            ],
            rules: [
                forbid(&[pair(1, 1), pair(2, 3)])?,
                activate(1, pair(0, 1))?,
                activate(2, pair(0, 1))?,
                activate(2, pair(0, 2))?,
                charge(pair(0, 1), 0, 40)?,
                charge(pair(0, 2), 0, 70)?,
                charge(pair(0, 3), 1, 60)?,
                charge(pair(1, 1), 0, 30)?,
                charge(pair(1, 2), 0, 45)?,
                charge(pair(2, 1), 0, 25)?,
                charge(pair(2, 2), 0, 15)?,
                charge(pair(2, 3), 0, 5)?,
            ],
        })
    }

    /// The rules as plain rows.
    pub fn rows(&self) -> [Row; 12]
        ensures { result ≡ map (λ rule. rule.row) self.now.rules }
    {
        self.rules.map(|rule| rule.row())
    }
}
