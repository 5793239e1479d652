//! What is done to a trail.
ghost use Rattle.std.specs.Prelude.{◌≡◌, ◌+◌, ◌-◌, ◌<◌, ◌≤◌, true, [], ◌∷◌, length};
ghost use Rattle.account.specs.Accounts.{chosen};
ghost use Rattle.rules.specs.Conditions.{from_bytes};
ghost use Rattle.sets.specs.Members.{members};
ghost use Rattle.tables.specs.Entries.{newest_first, proper};
ghost use Rattle.tables.specs.Retreats.{Latest, Retreated, Sweeping, swept};
ghost use Rattle.tables.specs.Trails.{trail_of};

use crate::{Choice, Entry, Retreat, Trail};
use arrayvec::ArrayVec;
use rules::MOST_DECISIONS;
use sets::DecisionSet;

// Casts in this file: indices by `usize::from` were tried, and the proofs of the calls did not close.

impl Trail {
    /// The trail with no entry.
    pub fn new() -> Trail
        ensures { trail_of result ≡ [] }
    {
        Trail {
            entries: ArrayVec::new(),
            values: [0; MOST_DECISIONS],
        }
    }

    /// Takes every entry off the trail.
    pub fn clear(&mut self)
        ensures { trail_of self.new ≡ [] }
    {
        self.entries.clear();
        self.values = [0; MOST_DECISIONS];
    }

    /// The value of each decision on the trail, 0 for the others.
    pub fn plan(&self) -> &[u8; MOST_DECISIONS]
        ensures { from_bytes result.now ≡ chosen (trail_of self.now) }
    {
        &self.values
    }

    /// Puts a decision that is not on the trail onto it.
    pub fn push(&mut self, choice: Choice, support: DecisionSet)
        requires { chosen (trail_of self.old) choice.decision ≡ 0 }
        ensures { trail_of self.new ≡ record { decision = choice.decision; value = choice.value; support = members support } ∷ trail_of self.old }
    {
        let Choice { decision, value } = choice;
        self.entries.push(Entry {
            decision,
            value,
            support,
        });
        self.values[decision as usize] = value;
    }

    /// The place of the latest entry whose decision is in a blame.
    fn latest_in(&self, blame: DecisionSet) -> Option<usize>
        ensures { Latest (members blame) self.now.entries.items result }
    {
        self.entries
            .iter()
            .rposition(|entry| blame.has(entry.decision))
    }

    /// Takes the latest entry whose decision is in the blame off the trail, with every later entry whose support has
    /// a decision that leaves. Answers none if no decision of the blame is on the trail.
    pub fn retreat(&mut self, blame: DecisionSet) -> Option<Retreat>
        ensures { Retreated (members blame) (trail_of self.old) (trail_of self.new) result }
    {
        let at = self.latest_in(blame)?;
        let culprit = self.entries[at];
        let (count, left) = sweep(self.entries.as_mut_slice(), &mut self.values, at);
        self.entries.truncate(count);
        Some(Retreat { culprit, left })
    }
}

/// Takes the entry at a place out, with every later one whose support has a decision that leaves. The others move up,
/// and what leaves has the value 0. Answers how many stay, and the decisions that left.
fn sweep(
    entries: &mut [Entry],
    values: &mut [u8; MOST_DECISIONS],
    at: usize,
) -> (usize, DecisionSet)
    requires within { at < length entries.old }
    requires distinct { proper (newest_first entries.old) ≡ true }
    ensures few { result.0 ≤ length entries.old }
    ensures after { Sweeping entries.old values.old (swept entries.old at (length entries.old - (at + 1))) entries.new values.new result.0 (members result.1) }
{
    let culprit = entries[at].decision;
    let mut left = DecisionSet::empty().with(culprit);
    values[culprit as usize] = 0;
    let mut place = at;
    // A loop: the closure of a `retain` would change `left`, and after it nothing would be known of that.
    for i in at + 1..entries.len() {
        let entry = entries[i];
        if entry.support.meets(left) {
            left = left.with(entry.decision);
            values[entry.decision as usize] = 0;
        } else {
            entries[place] = entry;
            place += 1;
        }
    }
    (place, left)
}
