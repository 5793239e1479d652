//! What a plan decides.

/// A decision: it has the values 1 to `size`, and is marked on or off.
#[derive(Clone, Copy, Debug, Default, PartialEq, Eq)]
pub struct Decision {
    pub size: u8,
    pub on: bool,
}
