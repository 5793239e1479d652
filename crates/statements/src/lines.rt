//! The lines of a text, from first to last.
ghost use Rattle.std.specs.Prelude.{◌≤◌};

use reading::Pieces;

mod giving;

/// The lines of a text that are still to come.
#[derive(Clone, Copy)]
pub struct Lines<'a> {
    pieces: Pieces<'a>,
    /// How many lines came before. Counted here: `enumerate` would hide whether a piece is left behind a line.
    given: usize,
    ghost fewer: { given ≤ pieces.place },
}
