//! The calls on a table of rules.
ghost use Rattle.std.specs.Prelude.{◌≡◌, ◌<◌, ◌≤◌, true, [], ◌∷◌, ◌++◌, length};
ghost use Rattle.std.specs.List.{remove};
ghost use Rattle.tables.specs.Shapes.{all_shaped};
ghost use Rattle.tables.specs.Tables.{table_rows};

use crate::ShapedRow;
use crate::rule_table::RuleTable;
use rules::{MOST_RULES, Row};

impl RuleTable {
    /// A table of no rule.
    pub fn new() -> RuleTable
        ensures { table_rows result ≡ [] }
    {
        RuleTable {
            rows: [Row::default(); MOST_RULES],
            count: 0,
        }
    }

    /// Takes all rules out.
    pub fn clear(&mut self)
        ensures { table_rows self.new ≡ [] }
    {
        self.count = 0;
    }

    /// The rows, in place order.
    // Facts of a slice, told where it is handed out: no type of a slice keeps them.
    pub fn rows(&self) -> &[Row]
        ensures value { result.now ≡ table_rows self.now }
        ensures shapes { all_shaped result.now ≡ true }
        ensures few { length result.now ≤ 256 }
    {
        &self.rows[0..self.count]
    }

    /// How many rules there are.
    pub fn len(&self) -> usize
        ensures { result ≡ length (table_rows self.now) }
    {
        self.rows().len()
    }

    /// Puts one more rule behind the others.
    // Room is asked for: it is a fact of the table beside the row, so no type of the row could carry it.
    pub fn push(&mut self, shaped: ShapedRow)
        requires { length (table_rows self.old) < 256 }
        ensures { table_rows self.new ≡ table_rows self.old ++ shaped.row ∷ [] }
    {
        self.rows[self.count] = shaped.row;
        self.count += 1;
    }

    /// Takes a rule out; those behind it move down by one.
    // That the place is there is asked for: a number that kept it would have to borrow the table that is changed.
    pub fn remove(&mut self, place: usize)
        requires { place < length (table_rows self.old) }
        ensures { table_rows self.new ≡ remove (table_rows self.old) place }
    {
        self.rows.copy_within(place + 1..self.count, place);
        self.count -= 1;
    }
}
