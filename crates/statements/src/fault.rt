//! Why and where a text is refused.
ghost use Rattle.std.specs.Prelude.{◌≡◌};

use rules::Refusal;

/// A refusal, with the line and column that it is about, both counted from 1.
#[derive(Clone, Copy, Debug, PartialEq, Eq)]
pub struct Fault {
    pub refusal: Refusal,
    pub line: usize,
    pub column: usize,
}

impl Fault {
    /// A refusal that is about a whole line.
    pub fn at_line(refusal: Refusal, line: usize) -> Fault
        ensures { result ≡ record { refusal = refusal; line = line; column = 1 } }
    {
        Fault {
            refusal,
            line,
            column: 1,
        }
    }
}
