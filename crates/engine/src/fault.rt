//! Why a book is not run.
ghost use Rattle.std.specs.Prelude.{◌≡◌};
ghost use Rattle.engine.specs.Answered.{fault_number};
ghost use Rattle.engine.specs.declared.fault.Fault.TheVariants.{Refused};

use rules::Refusal;

/// Bytes that are no book, or a refusal of the planner.
#[derive(Clone, Copy, Debug)]
pub enum Fault {
    Malformed,
    Refused(Refusal),
}

// By hand: `thiserror` would want a text for each variant, and the C interface has none.
impl From<Refusal> for Fault {
    ghost from_gives = { λ refusal fault. fault ≡ Refused refusal };

    fn from(refusal: Refusal) -> Fault {
        Fault::Refused(refusal)
    }
}

impl Fault {
    /// The number that stands for the fault, 255 beside those of refusals: the C interface answers a number.
    pub fn number(self) -> u8
        ensures { result ≡ fault_number self }
    {
        match self {
            Fault::Malformed => 255,
            Fault::Refused(refusal) => refusal.number(),
        }
    }
}
