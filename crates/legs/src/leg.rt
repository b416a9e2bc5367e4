// The six legs by name.
ghost use Rattle.std.specs.Prelude.{◌≡◌};
ghost use Rattle.legs.specs.LegNumbers.{leg_number};

use std::fmt;

/// A leg, in row order.
#[derive(Clone, Copy, Debug, PartialEq, Eq)]
pub enum Leg {
    LeftFront,
    RightFront,
    LeftMiddle,
    RightMiddle,
    LeftRear,
    RightRear,
}

impl Leg {
    /// Its place in a row of six: 0 to 5.
    pub fn number(self) -> u32
        ensures { result ≡ leg_number self }
    {
        match self {
            Leg::LeftFront => 0,
            Leg::RightFront => 1,
            Leg::LeftMiddle => 2,
            Leg::RightMiddle => 3,
            Leg::LeftRear => 4,
            Leg::RightRear => 5,
        }
    }
}

impl fmt::Display for Leg {
    fn fmt<W: fmt::Write>(&self, f: &mut fmt::Formatter<W>) -> fmt::Result {
        match self {
            Leg::LeftFront => write!(f, "left front"),
            Leg::RightFront => write!(f, "right front"),
            Leg::LeftMiddle => write!(f, "left middle"),
            Leg::RightMiddle => write!(f, "right middle"),
            Leg::LeftRear => write!(f, "left rear"),
            Leg::RightRear => write!(f, "right rear"),
        }
    }
}
