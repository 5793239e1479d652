//! The fields of a line, from left to right.
use reading::Pieces;

mod taking;

/// The fields of a line that are still to come.
#[derive(Clone, Copy)]
pub struct Fields<'a> {
    pieces: Pieces<'a>,
    line: usize,
}
