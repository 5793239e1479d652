//! What a run answers.
ghost use Rattle.std.specs.Prelude.{◌≡◌, ◌++◌, Some, codes, decimal};
ghost use Rattle.account.specs.States.{state_word};

use account::State;
use std::fmt;

/// The steps that a run made, and the state that it left.
#[derive(Clone, Copy)]
pub struct Ran {
    pub steps: u32,
    pub state: State,
}

// By hand: its contract pins steps and state; with a closure in `run` a wrong count would pass.
impl From<(u32, State)> for Ran {
    ghost from_gives = { λ answer ran. (ran.steps ≡ answer.0) × (ran.state ≡ answer.1) };

    fn from((steps, state): (u32, State)) -> Ran {
        Ran { steps, state }
    }
}

impl fmt::Display for Ran {
    ghost output = { λ ran. Some (decimal ran.steps ++ (codes " made, " ++ state_word ran.state)) };

    fn fmt<W: fmt::Write>(&self, f: &mut fmt::Formatter<W>) -> fmt::Result {
        write!(f, "{} made, {}", self.steps, self.state)
    }
}
