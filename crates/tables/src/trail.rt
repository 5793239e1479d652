//! The trail of a planner: its choices so far.
ghost use Rattle.std.specs.Prelude.{◌≡◌, ℕ, true, slice_index};
ghost use Rattle.account.specs.Accounts.{chosen};
ghost use Rattle.tables.specs.Entries.{newest_first, proper};

use crate::Entry;
use arrayvec::ArrayVec;
use rules::MOST_DECISIONS;

mod moves;

/// The choices of a planner, the oldest first, no decision twice; beside them the value of each decision, 0 if it is
/// not on the trail.
#[derive(Drop)]
pub struct Trail {
    entries: ArrayVec<Entry, MOST_DECISIONS>,
    /// Kept beside the entries, as is asked for: every step reads the plan.
    values: [u8; MOST_DECISIONS],
    ghost distinct: { proper (newest_first entries.items) ≡ true },
    ghost planned: { ((d : ℕ) → slice_index values d ≡ chosen (newest_first entries.items) d) },
}
