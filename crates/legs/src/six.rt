// A value for each of six legs, as the source's `HexapodTypes` has it.
ghost use Rattle.std.specs.Prelude.{◌≡◌};
ghost use Rattle.numbers.specs.Told.{choose};
ghost use Rattle.legs.specs.Legs.{row, at, six, every, some};

/// The first where the flag stands, else the second.
fn chosen<T: Copy>(flag: bool, first: T, second: T) -> T
    ensures { result ≡ choose flag first second }
{
    if flag { first } else { second }
}

/// One value for each leg.
#[derive(Clone, Copy, Debug, PartialEq)]
pub struct HexapodTypes<T> {
    pub left_front: T,
    pub left_middle: T,
    pub left_rear: T,
    pub right_front: T,
    pub right_middle: T,
    pub right_rear: T,
}

impl<T: Copy> HexapodTypes<T> {
    /// From a row: left front, right front, left middle, right middle, left rear, right rear.
    pub fn from_legs(legs: [T; 6]) -> HexapodTypes<T>
        ensures { row (at result) ≡ legs }
    {
        HexapodTypes {
            left_front: legs[0],
            left_middle: legs[2],
            left_rear: legs[4],
            right_front: legs[1],
            right_middle: legs[3],
            right_rear: legs[5],
        }
    }

    /// Such a row.
    pub fn as_legs(self) -> [T; 6]
        ensures { result ≡ row (at self) }
    {
        [
            self.left_front,
            self.right_front,
            self.left_middle,
            self.right_middle,
            self.left_rear,
            self.right_rear,
        ]
    }

    /// What f makes of each.
    pub fn map<U: Copy, F: Fn(T) -> U>(self, f: F) -> HexapodTypes<U>
        requires { F.IsAlwaysCallable f }
        ensures left_front { F.post f self.left_front result.left_front }
        ensures left_middle { F.post f self.left_middle result.left_middle }
        ensures left_rear { F.post f self.left_rear result.left_rear }
        ensures right_front { F.post f self.right_front result.right_front }
        ensures right_middle { F.post f self.right_middle result.right_middle }
        ensures right_rear { F.post f self.right_rear result.right_rear }
    {
        HexapodTypes {
            left_front: f(self.left_front),
            left_middle: f(self.left_middle),
            left_rear: f(self.left_rear),
            right_front: f(self.right_front),
            right_middle: f(self.right_middle),
            right_rear: f(self.right_rear),
        }
    }

    /// What f makes of each and that of the same leg in another six.
    pub fn zip_with<U: Copy, V: Copy, F: Fn(T, U) -> V>(
        self,
        other: HexapodTypes<U>,
        f: F,
    ) -> HexapodTypes<V>
        requires { F.IsAlwaysCallable f }
        ensures left_front { F.post f self.left_front other.left_front result.left_front }
        ensures left_middle { F.post f self.left_middle other.left_middle result.left_middle }
        ensures left_rear { F.post f self.left_rear other.left_rear result.left_rear }
        ensures right_front { F.post f self.right_front other.right_front result.right_front }
        ensures right_middle { F.post f self.right_middle other.right_middle result.right_middle }
        ensures right_rear { F.post f self.right_rear other.right_rear result.right_rear }
    {
        HexapodTypes {
            left_front: f(self.left_front, other.left_front),
            left_middle: f(self.left_middle, other.left_middle),
            left_rear: f(self.left_rear, other.left_rear),
            right_front: f(self.right_front, other.right_front),
            right_middle: f(self.right_middle, other.right_middle),
            right_rear: f(self.right_rear, other.right_rear),
        }
    }

    /// Exactly the flagged legs from another six, the rest from this one.
    pub fn merge_with(self, other: HexapodTypes<T>, flags: HexapodTypes<bool>) -> HexapodTypes<T>
        ensures { result ≡ six (λ l. choose (at flags l) (at other l) (at self l)) }
    {
        HexapodTypes {
            left_front: chosen(flags.left_front, other.left_front, self.left_front),
            left_middle: chosen(flags.left_middle, other.left_middle, self.left_middle),
            left_rear: chosen(flags.left_rear, other.left_rear, self.left_rear),
            right_front: chosen(flags.right_front, other.right_front, self.right_front),
            right_middle: chosen(flags.right_middle, other.right_middle, self.right_middle),
            right_rear: chosen(flags.right_rear, other.right_rear, self.right_rear),
        }
    }
}

impl HexapodTypes<bool> {
    /// Whether all six hold.
    pub fn all(self) -> bool
        ensures { result ≡ every (at self) }
    {
        self.left_front
            & self.right_front
            & self.left_middle
            & self.right_middle
            & self.left_rear
            & self.right_rear
    }

    /// Whether one of the six holds.
    pub fn any(self) -> bool
        ensures { result ≡ some (at self) }
    {
        self.left_front
            | self.right_front
            | self.left_middle
            | self.right_middle
            | self.left_rear
            | self.right_rear
    }
}
