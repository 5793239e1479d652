//! What a run leaves.

/// What a run leaves. The cost is 0 if no best is held. The flag stands beside the cost, since the C interface has no
/// `Option`.
#[repr(C)]
#[derive(Clone, Copy)]
pub struct Outcome {
    pub cost: u64,
    pub steps: u32,
    pub settled: bool,
    pub held: bool,
}
