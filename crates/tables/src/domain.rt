//! What a decision may take.
ghost use Rattle.std.specs.Prelude.{◌<◌, ◌≤◌};

/// The domain of a decision: it has the values 1 to `size`.
#[derive(Clone, Copy)]
pub struct Domain {
    pub decision: u8,
    pub size: u8,
    ghost known: { decision < 64 },
    ghost few: { size ≤ 16 },
}

/// A value for a decision.
#[derive(Clone, Copy)]
pub struct Choice {
    pub decision: u8,
    pub value: u8,
    ghost known: { decision < 64 },
    ghost some: { 1 ≤ value },
    ghost few: { value ≤ 16 },
}
