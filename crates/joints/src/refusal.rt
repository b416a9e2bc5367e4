// Why a solver refuses.
ghost use Rattle.std.specs.Prelude.{◌≡◌};
ghost use Rattle.joints.specs.Answers.{of_the_door};

use legs::Leg;
use numbers::Refusal;
use std::error::Error;
use std::fmt;

/// Why a solver refuses: the refusal, and the leg that is past its limit or out of reach. A refusal of the door names no leg.
#[derive(Clone, Copy, Debug, PartialEq, Eq)]
pub struct SolverRefusal {
    pub refusal: Refusal,
    pub leg: Option<Leg>,
}

impl From<Refusal> for SolverRefusal {
    ghost from_gives = { λ r e. e ≡ of_the_door r };

    fn from(refusal: Refusal) -> SolverRefusal {
        SolverRefusal { refusal, leg: None }
    }
}

impl fmt::Display for SolverRefusal {
    fn fmt<W: fmt::Write>(&self, f: &mut fmt::Formatter<W>) -> fmt::Result {
        match self.leg {
            Some(leg) => write!(f, "{leg}: {}", self.refusal),
            None => write!(f, "{}", self.refusal),
        }
    }
}

impl Error for SolverRefusal {}
