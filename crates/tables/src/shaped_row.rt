//! Rows that a table takes.
ghost use Rattle.std.specs.Prelude.{◌≡◌, true};
ghost use Rattle.tables.specs.Shapes.{shaped};

use rules::Row;

/// A row of the shape that every row of a table has.
#[derive(Clone, Copy)]
pub struct ShapedRow {
    pub row: Row,
    ghost shape: { shaped row ≡ true },
}
