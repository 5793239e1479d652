//! Where a filler stands.
ghost use Rattle.std.specs.Prelude.{◌≡◌};

use crate::Filler;

impl Filler<'_> {
    /// The place of the next byte.
    pub fn position(&self) -> usize
        ensures { result ≡ self.now.at }
    {
        self.at
    }

    /// Whether some byte found no room.
    pub fn is_full(&self) -> bool
        ensures { result ≡ self.now.full }
    {
        self.full
    }
}
