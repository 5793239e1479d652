//! Costs as text.
ghost use Rattle.std.specs.Prelude.{Some, codes, decimal};
ghost use Rattle.std.specs.Fmt.{◌++?◌};

use crate::{Cents, Pair, Tier};
use std::fmt;

impl fmt::Display for Cents {
    ghost output = { λ cost. Some (decimal cost.sum) };

    fn fmt<W: fmt::Write>(&self, f: &mut fmt::Formatter<W>) -> fmt::Result {
        write!(f, "{}", self.sum)
    }
}

impl fmt::Display for Tier {
    ghost output = { λ cost. Some (decimal cost.level) };

    fn fmt<W: fmt::Write>(&self, f: &mut fmt::Formatter<W>) -> fmt::Result {
        write!(f, "{}", self.level)
    }
}

impl<A: fmt::Display, B: fmt::Display> fmt::Display for Pair<A, B> {
    ghost output = { λ cost. Some (codes "(") ++? A.output cost.first ++? Some (codes ", ") ++? B.output cost.second ++? Some (codes ")") };

    fn fmt<W: fmt::Write>(&self, f: &mut fmt::Formatter<W>) -> fmt::Result {
        write!(f, "({}, {})", self.first, self.second)
    }
}
