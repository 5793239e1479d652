//! A sink that only counts.
ghost use Rattle.writing.specs.Sinks.{counted};

use crate::Sink;

/// How many bytes came, up to the largest number.
#[derive(Clone, Copy, Default)]
pub struct Counter {
    pub count: usize,
}

impl Sink for Counter {
    ghost after = { counted };

    fn byte(&mut self, _byte: u8) {
        self.count = self.count.saturating_add(1);
    }
}
