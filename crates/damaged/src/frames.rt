//! Books in frames: a line with a length and a number of times, then so many bytes, which stand for a book that is
//! these bytes so many times.
ghost use Rattle.std.specs.Prelude.{◌≤◌, length};

use reading::{number, split_once};

/// The largest number in a frame's first line.
// Not the same limit as the input's: it is one of times too.
const MOST: u32 = 131_072;

/// A frame, and what follows it.
#[derive(Clone, Copy)]
pub struct Frame<'a> {
    pub part: &'a [u8],
    pub times: usize,
    pub rest: &'a [u8],
}

/// The number of at most `MOST` that a text states.
fn stated(text: &[u8]) -> Option<usize> {
    usize::try_from(number(text, MOST)?).ok()
}

/// The first frame of an input, if there is one.
fn next_frame<'a>(input: &'a [u8]) -> Option<Frame<'a>> {
    let (header, body) = split_once(input, b'\n')?;
    let (length, times) = split_once(header, b' ')?;
    let times = stated(times)?;
    let (part, rest) = body.split_at_checked(stated(length)?)?;
    Some(Frame { part, times, rest })
}

/// The frames of an input, from first to last.
#[derive(Drop)]
pub struct Frames<'a>(pub &'a [u8]);

impl<'a> Iterator for Frames<'a> {
    type Item = Frame<'a>;

    fn next(&mut self) -> Option<Frame<'a>> {
        let frame = next_frame(self.0)?;
        self.0 = frame.rest;
        Some(frame)
    }
}

/// Puts a part so many times into a book, as long as there is room, and answers what it filled.
pub fn repeat<'a>(part: &[u8], times: usize, book: &'a mut [u8]) -> &'a [u8]
    ensures { length result.now ≤ length book.old }
{
    if part.is_empty() {
        return &book[0..0];
    }
    let count = times.min(book.len() / part.len());
    let filled = &mut book[0..count * part.len()];
    for place in filled.chunks_exact_mut(part.len()) {
        place.copy_from_slice(part);
    }
    filled
}
