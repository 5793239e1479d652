//! Whether a planner has steps left.
ghost use Rattle.std.specs.Prelude.{Some};
ghost use Rattle.account.specs.States.{state_word};

use std::fmt;

/// Open while steps can be made, settled when the search is at its end.
#[derive(Clone, Copy, Debug, PartialEq, Eq)]
pub enum State {
    Open,
    Settled,
}

impl fmt::Display for State {
    ghost output = { λ state. Some (state_word state) };

    fn fmt<W: fmt::Write>(&self, f: &mut fmt::Formatter<W>) -> fmt::Result {
        match self {
            State::Open => f.write_str("open"),
            State::Settled => f.write_str("settled"),
        }
    }
}
