// Six legs: feet and joint angles by leg, masks of legs, selection and merge (source 003).
// Lengths are metres, angles radians.
#![tactic(auto)]

ghost use Rattle.std.specs.Prelude.{◌≡◌};
ghost use Rattle.legs.specs.Answers.{told, told_selected};
ghost use Rattle.numbers.specs.Refusals.{number_or_0};
ghost use Rattle.legs.specs.Merge.{merge_refusal, merge_told};
ghost use Rattle.legs.specs.Select.{select_refusal, select_told};

use numbers::{Refusal, door};

pub mod flags;
mod leg;
mod six;
pub mod unchecked;

pub use leg::Leg;
pub use six::HexapodTypes;

/// Six points, by leg: what is computed of feet.
pub type Points = HexapodTypes<Point>;

/// Six feet.
pub type Feet = HexapodTypes<Foot>;

/// Eighteen joint angles.
pub type Joints = HexapodTypes<LegAngles>;

/// A point or a vector, in metres.
#[derive(Clone, Copy, Debug, PartialEq)]
pub struct Point {
    pub x: f32,
    pub y: f32,
    pub z: f32,
}

/// A foot: where it is, and whether it is lifted. One that is not stands.
#[derive(Clone, Copy, Debug, PartialEq)]
pub struct Foot {
    pub point: Point,
    pub lifted: bool,
}

/// The three joint angles of a leg.
#[derive(Clone, Copy, Debug, PartialEq)]
pub struct LegAngles {
    pub coxa: f32,
    pub femur: f32,
    pub tibia: f32,
}

/// A row of six with a length: that many places count, from the first on. The others hold +0 and stand.
#[derive(Clone, Copy, Debug, PartialEq)]
pub struct RowOfSix {
    pub len: usize,
    pub feet: [Foot; 6],
}

/// Why a merge is refused: the least number that applies.
pub fn admit_merge(a: Feet, b: Feet, mask: u32) -> Result<(), Refusal>
    ensures { number_or_0 result ≡ merge_refusal a b mask }
{
    if unchecked::feet_in_limits(a) & unchecked::feet_in_limits(b) {
        unchecked::admit_mask(mask)
    } else {
        Err(door::outside(unchecked::feet_finite(a) & unchecked::feet_finite(b)))
    }
}

// Kept: a mask stays a `u32` on an entry, here and below. Each takes every number, and refuses those above 63.

/// Exactly the flagged legs from b, the others from a; a foot's mark goes with its point.
#[tactic(auto, using(numbers::proofs::Admitted::entry), unfolding(crate::specs::Merge::merge_told))]
pub fn merge_with(a: Feet, b: Feet, mask: u32) -> Result<Feet, Refusal>
    ensures { told result ≡ merge_told a b mask }
{
    admit_merge(a, b, mask)?;
    Ok(unchecked::merge_with(a, b, mask))
}

/// Why a selection is refused: the least number that applies.
pub fn admit_selection(feet: Feet, mask: u32) -> Result<(), Refusal>
    ensures { number_or_0 result ≡ select_refusal feet mask }
{
    if unchecked::feet_in_limits(feet) {
        unchecked::admit_mask(mask)
    } else {
        Err(door::outside(unchecked::feet_finite(feet)))
    }
}

/// The flagged legs' feet, in row order.
#[tactic(auto, using(numbers::proofs::Admitted::entry), unfolding(crate::specs::Select::select_told))]
pub fn selected_legs(feet: Feet, mask: u32) -> Result<RowOfSix, Refusal>
    ensures { told_selected result ≡ select_told feet mask }
{
    admit_selection(feet, mask)?;
    Ok(unchecked::selected_legs(feet, mask))
}
