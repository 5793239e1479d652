//! Reading and changing the decisions and rules that a planner holds.
ghost use Rattle.std.specs.Prelude.{◌≡◌, ◌<◌, ◌≤◌, true, [], ◌∷◌, ◌++◌, length, MatchOption};
ghost use Rattle.std.specs.List.{remove};
ghost use Rattle.account.specs.Changes.{held, with_rules};
ghost use Rattle.rules.specs.Judging.{open_refusal, sized};
ghost use Rattle.rules.specs.Refusals.{as_result, unless_refused};
ghost use Rattle.scans.specs.Known.{Known};
ghost use Rattle.tables.specs.Shapes.{all_shaped};
ghost use Rattle.tables.specs.Tables.{table_rows};
ghost use Rattle.planner.specs.Books.{IsDomain, book_of, over_decisions};

use crate::book::Book;
use arrayvec::ArrayVec;
use rules::{Decision, Kind, Refusal, Row, check_decisions};
use tables::{Domain, RuleTable, ShapedRow};

impl Book {
    ghost use Rattle.std.specs.Borrow.{sem};
    ghost use Rattle.planner.specs.Lending.{LendsTable};

    /// A book of no decisions and no rules.
    pub fn new() -> Book
        ensures { book_of result ≡ over_decisions [] }
    {
        Book {
            decisions: ArrayVec::new(),
            forbids: RuleTable::new(),
            activates: RuleTable::new(),
            prices: RuleTable::new(),
        }
    }

    /// Makes this a book of these decisions and no rules. Refuses more than 64, then a size outside 1 to 16; it then
    /// stays as it was.
    pub fn open(&mut self, decisions: &[Decision]) -> Result<(), Refusal>
        ensures value { result ≡ as_result (open_refusal decisions.now) }
        ensures after { book_of self.new ≡ unless_refused (open_refusal decisions.now) (book_of self.old) (over_decisions decisions.now) }
    {
        check_decisions(decisions)?;
        // Never refused: accepted decisions are 64 at most.
        self.decisions = ArrayVec::try_from(decisions).unwrap();
        self.forbids.clear();
        self.activates.clear();
        self.prices.clear();
        Ok(())
    }

    /// The decisions.
    pub fn decisions(&self) -> &[Decision]
        ensures value { result.now ≡ (book_of self.now).decisions }
        ensures few { length result.now ≤ 64 }
        ensures sizes { sized result.now ≡ true }
    {
        self.decisions.as_slice()
    }

    /// How many decisions there are.
    pub fn count(&self) -> u8
        ensures { result ≡ length (book_of self.now).decisions }
    {
        // Cast: 64 at most fit, and `try_from` would say a failure that there is not.
        self.decisions.len() as u8
    }

    /// The domain of a decision; none if there is no such decision.
    // That it is one of this book is a fact of two values, so no field of `Domain` can keep it.
    pub fn domain(&self, decision: u8) -> Option<Domain>
        ensures { MatchOption result (length (book_of self.now).decisions ≤ decision) (λ d. (d.decision ≡ decision) × IsDomain (book_of self.now) d) }
    {
        let size = self.decisions().get(usize::from(decision))?.size;
        Some(Domain { decision, size })
    }

    /// The table of the rules of a kind.
    // Twice, here and for changes: nothing is generic over how it is lent.
    fn table(&self, kind: Kind) -> &RuleTable
        ensures { table_rows result.now ≡ held (book_of self.now) kind }
    {
        match kind {
            Kind::Forbid => &self.forbids,
            Kind::Activate => &self.activates,
            Kind::Price => &self.prices,
        }
    }

    /// The table of the rules of a kind, for changes.
    fn table_mut(&mut self, kind: Kind) -> &mut RuleTable
        ensures* writes_back { sem 𝓛 (LendsTable self.entry kind result) }
        ensures value { table_rows result.now ≡ held (book_of self.old) kind }
    {
        match kind {
            Kind::Forbid => &mut self.forbids,
            Kind::Activate => &mut self.activates,
            Kind::Price => &mut self.prices,
        }
    }

    /// The rules of a kind, in place order.
    // A slice with its facts, as the public call answers it: a type around it would be opened again at each use.
    pub fn rows(&self, kind: Kind) -> &[Row]
        ensures value { result.now ≡ held (book_of self.now) kind }
        ensures few { length result.now ≤ 256 }
        ensures shapes { all_shaped result.now ≡ true }
        ensures known { Known result.now }
    {
        self.table(kind).rows()
    }

    /// How many rules of a kind there are.
    pub fn len(&self, kind: Kind) -> usize
        ensures { result ≡ length (held (book_of self.now) kind) }
    {
        self.table(kind).len()
    }

    /// Puts a rule last of its kind.
    pub fn add(&mut self, shaped: ShapedRow)
        requires { length (held (book_of self.old) shaped.row.kind) < 256 }
        ensures { book_of self.new ≡ with_rules (book_of self.old) shaped.row.kind (held (book_of self.old) shaped.row.kind ++ shaped.row ∷ []) }
    {
        self.table_mut(shaped.row.kind).push(shaped);
    }

    /// Takes out the rule of a kind at a place; later ones of the kind move down by one.
    pub fn remove(&mut self, kind: Kind, place: usize)
        requires { place < length (held (book_of self.old) kind) }
        ensures { book_of self.new ≡ with_rules (book_of self.old) kind (remove (held (book_of self.old) kind) place) }
    {
        self.table_mut(kind).remove(place);
    }
}
