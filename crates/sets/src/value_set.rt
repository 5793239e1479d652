//! Sets of the values of one decision.
ghost use Rattle.std.specs.Prelude.{◌≡◌, min, false, not, ◌&&◌, ◌||◌, ◌==◌, nat_le};
ghost use Rattle.sets.specs.Members.{values};
ghost use Rattle.sets.specs.Searches.{smallest_outside, count_outside};

use crate::first_bits::first_bits;

/// A set of the values 1 to 16: value `v` is in it where bit `v - 1` is set.
#[derive(Clone, Copy, Debug, PartialEq, Eq)]
pub struct ValueSet {
    pub bits: u16,
}

/// Whether a number is a value, 1 to 16.
fn is_value(v: u8) -> bool
    ensures { result ≡ (nat_le 1 v && nat_le v 16) }
{
    (1..=16).contains(&v)
}

impl ValueSet {
    /// The set of no value.
    pub fn empty() -> ValueSet
        ensures { values result ≡ (λ x. false) }
    {
        ValueSet { bits: 0 }
    }

    /// Whether a value is in the set.
    pub fn has(self, v: u8) -> bool
        ensures { result ≡ values self v }
    {
        is_value(v) && (self.bits >> (v - 1)) & 1 == 1
    }

    /// The set with one more value; a value outside 1 to 16 changes nothing.
    pub fn with(self, v: u8) -> ValueSet
        ensures { values result ≡ (λ x. values self x || (x == v && (nat_le 1 v && nat_le v 16))) }
    {
        if is_value(v) {
            ValueSet {
                bits: self.bits | (1u16 << (v - 1)),
            }
        } else {
            self
        }
    }

    /// The set without a value.
    pub fn without(self, v: u8) -> ValueSet
        ensures { values result ≡ (λ x. values self x && not (x == v)) }
    {
        if is_value(v) {
            ValueSet {
                bits: self.bits & !(1u16 << (v - 1)),
            }
        } else {
            self
        }
    }

    /// The smallest of the values 1 to `size`, of 16 at most, that is not in the set.
    pub fn smallest_outside(self, size: u8) -> Option<u8>
        ensures { result ≡ smallest_outside (values self) (min size 16) }
    {
        // The values 1 to `filled` are in the set, and the next is not. Of casts here and below: a bit count fits, and
        // a `try_from` would say a failure that there is not.
        let filled = (!self.bits).trailing_zeros() as u8;
        (filled < size.min(16)).then_some(filled + 1)
    }

    /// How many of the values 1 to `size`, of 16 at most, are not in the set.
    pub fn count_outside(self, size: u8) -> u8
        ensures { result ≡ count_outside (values self) (min size 16) }
    {
        (!self.bits & first_bits(size.min(16)) as u16).count_ones() as u8
    }
}
