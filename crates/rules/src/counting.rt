//! Which rows count as activate rules.
ghost use Rattle.std.specs.Prelude.{◌≡◌, Bool, true};
ghost use Rattle.rules.specs.Compose.{is_activate};
ghost use Rattle.rules.specs.declared.row.Row.{Row};

use crate::Row;

/// A choice of the rows that count as activate rules.
pub trait Counting {
    ghost counted: { Row → Bool };

    /// Whether a row counts.
    fn counts(row: &Row) -> bool
        ensures { result ≡ counted row.now };
}

/// Of rows of all kinds, those of activate rules count.
#[derive(Clone, Copy)]
pub struct ActivateKind;

/// Of rows that are all of activate rules, each counts.
#[derive(Clone, Copy)]
pub struct EachRow;

impl Counting for ActivateKind {
    ghost counted = { λ r. is_activate r.kind };

    fn counts(row: &Row) -> bool {
        row.kind.is_activate()
    }
}

impl Counting for EachRow {
    ghost counted = { λ r. true };

    fn counts(_row: &Row) -> bool {
        true
    }
}
