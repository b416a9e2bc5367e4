// The flags of a mask of legs, as the source's `LegFlags` has them: one bit a leg, and groups of legs.
// Kept: each is a function, though they differ in a number alone, since a contract can state a function's answer and not a constant's.
ghost use Rattle.std.specs.Prelude.{◌≡◌};
ghost use Rattle.legs.specs.Flags as flags;
ghost use Rattle.legs.specs.Legs.{left_front, left_middle, left_rear, right_front, right_middle, right_rear};
ghost use Rattle.legs.specs.Legs.{six};
ghost use Rattle.legs.specs.Masks.{weight, has};

use crate::HexapodTypes;

const LEFT_FRONT: u32 = 0b0000_0001;

const LEFT_MIDDLE: u32 = 0b0000_0010;

const LEFT_REAR: u32 = 0b0000_0100;

const RIGHT_FRONT: u32 = 0b0000_1000;

const RIGHT_MIDDLE: u32 = 0b0001_0000;

const RIGHT_REAR: u32 = 0b0010_0000;

const LRL_TRIPOD: u32 = LEFT_FRONT + RIGHT_MIDDLE + LEFT_REAR;

const RLR_TRIPOD: u32 = RIGHT_FRONT + LEFT_MIDDLE + RIGHT_REAR;

/// Which legs a mask names. Bits past the six name none.
pub fn named(mask: u32) -> HexapodTypes<bool>
    ensures { result ≡ six (has mask) }
{
    HexapodTypes {
        left_front: mask / LEFT_FRONT % 2 == 1,
        left_middle: mask / LEFT_MIDDLE % 2 == 1,
        left_rear: mask / LEFT_REAR % 2 == 1,
        right_front: mask / RIGHT_FRONT % 2 == 1,
        right_middle: mask / RIGHT_MIDDLE % 2 == 1,
        right_rear: mask / RIGHT_REAR % 2 == 1,
    }
}

/// The flag of the left front leg.
pub fn left_front() -> u32
    ensures { result ≡ weight left_front }
{
    LEFT_FRONT
}

/// The flag of the left middle leg.
pub fn left_middle() -> u32
    ensures { result ≡ weight left_middle }
{
    LEFT_MIDDLE
}

/// The flag of the left rear leg.
pub fn left_rear() -> u32
    ensures { result ≡ weight left_rear }
{
    LEFT_REAR
}

/// The flag of the right front leg.
pub fn right_front() -> u32
    ensures { result ≡ weight right_front }
{
    RIGHT_FRONT
}

/// The flag of the right middle leg.
pub fn right_middle() -> u32
    ensures { result ≡ weight right_middle }
{
    RIGHT_MIDDLE
}

/// The flag of the right rear leg.
pub fn right_rear() -> u32
    ensures { result ≡ weight right_rear }
{
    RIGHT_REAR
}

/// The legs that one tripod lifts: left front, right middle, left rear.
pub fn lrl_tripod() -> u32
    ensures { result ≡ flags.lrl_tripod }
{
    LEFT_FRONT + RIGHT_MIDDLE + LEFT_REAR
}

/// The legs that the other tripod lifts.
pub fn rlr_tripod() -> u32
    ensures { result ≡ flags.rlr_tripod }
{
    RIGHT_FRONT + LEFT_MIDDLE + RIGHT_REAR
}

/// The three legs of the right.
pub fn right() -> u32
    ensures { result ≡ flags.right }
{
    RIGHT_FRONT + RIGHT_MIDDLE + RIGHT_REAR
}

/// The three legs of the left.
pub fn left() -> u32
    ensures { result ≡ flags.left }
{
    LEFT_FRONT + LEFT_MIDDLE + LEFT_REAR
}

/// The two legs in the middle.
pub fn middle() -> u32
    ensures { result ≡ flags.middle }
{
    RIGHT_MIDDLE + LEFT_MIDDLE
}

/// The two legs at the front.
pub fn front() -> u32
    ensures { result ≡ flags.front }
{
    LEFT_FRONT + RIGHT_FRONT
}

/// The two legs at the rear.
pub fn rear() -> u32
    ensures { result ≡ flags.rear }
{
    LEFT_REAR + RIGHT_REAR
}

/// All six legs.
pub fn all() -> u32
    ensures { result ≡ flags.all }
{
    LEFT_FRONT + LEFT_MIDDLE + LEFT_REAR + RIGHT_FRONT + RIGHT_MIDDLE + RIGHT_REAR
}
