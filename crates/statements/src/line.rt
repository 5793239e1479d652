//! The lines of a book.

/// A line of a text, without the byte that ends it; its number counts from 1.
#[derive(Clone, Copy, Debug, PartialEq, Eq)]
pub struct Line<'a> {
    pub bytes: &'a [u8],
    pub number: usize,
    /// Whether byte 10 ends the line.
    pub ended: bool,
}

/// The kinds of line, each with the byte that such a line begins with.
#[derive(Clone, Copy, Debug, PartialEq, Eq)]
pub enum LineKind {
    Decision = 68,
    Forbid = 70,
    Activate = 65,
    Price = 80,
}
