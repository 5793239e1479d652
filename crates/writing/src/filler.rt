//! A sink that keeps what comes.
ghost use Rattle.std.specs.Prelude.{◌≡◌, false};
ghost use Rattle.writing.specs.Sinks.{stored};

use crate::Sink;

mod standing;

/// A buffer that is filled from its start, with the place of the next byte beside, since the buffer is lent and there
/// is no heap for a vector. One that is full takes no more, and says that a byte was lost.
#[derive(Drop)]
pub struct Filler<'a> {
    buffer: &'a mut [u8],
    at: usize,
    full: bool,
}

impl<'a> Filler<'a> {
    /// A filler at the buffer's start.
    pub fn new(buffer: &'a mut [u8]) -> Filler<'a>
        ensures same { result.buffer ≡ buffer.entry }
        ensures at_start { result.at ≡ 0 }
        ensures none_lost { result.full ≡ false }
    {
        Filler {
            buffer,
            at: 0,
            full: false,
        }
    }
}

impl<'a> Sink for Filler<'a> {
    ghost after = { stored };

    fn byte(&mut self, byte: u8) {
        if self.at < self.buffer.len() {
            self.buffer[self.at] = byte;
            self.at += 1;
        } else {
            self.full = true;
        }
    }
}
