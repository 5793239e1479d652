//! What a price rule states.

/// A price: a tier, and an amount in cents.
#[derive(Clone, Copy, Debug, Default, PartialEq, Eq)]
pub struct Price {
    pub tier: u8,
    pub cents: u32,
}
