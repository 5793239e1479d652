//! A text cut at a byte.
ghost use Rattle.std.specs.Prelude.{◌+◌, ◌≤◌, length};

mod cutting;

pub use cutting::split_once;

/// A piece of a text, with the column of its first byte, counted from 1.
#[derive(Clone, Copy)]
pub struct Piece<'a> {
    pub bytes: &'a [u8],
    pub column: usize,
}

/// The pieces of a text that are still to come: those from a place on. Where none is left the place is one past the
/// end, and no `Option`: the column is asked for there too, to tell where a piece is missing.
#[derive(Clone, Copy)]
pub struct Pieces<'a> {
    text: &'a [u8],
    at: u8,
    place: usize,
    ghost near: { place ≤ length text.now + 1 },
}
