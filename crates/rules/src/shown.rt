//! Pairs and refusals as text.
ghost use Rattle.std.specs.Prelude.{◌++◌, Some, codes, decimal};
ghost use Rattle.rules.specs.Refusals.{number_of};

use crate::{Literal, Refusal};
use std::fmt;

impl fmt::Display for Literal {
    ghost output = { λ pair. Some (decimal pair.decision ++ (codes "=" ++ decimal pair.value)) };

    fn fmt<W: fmt::Write>(&self, f: &mut fmt::Formatter<W>) -> fmt::Result {
        write!(f, "{}={}", self.decision, self.value)
    }
}

impl fmt::Display for Refusal {
    ghost output = { λ refusal. Some (codes "refused " ++ decimal (number_of refusal)) };

    fn fmt<W: fmt::Write>(&self, f: &mut fmt::Formatter<W>) -> fmt::Result {
        write!(f, "refused {}", self.number())
    }
}
