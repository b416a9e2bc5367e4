// The operations behind the door, total on every value, for the rooms above.
ghost use Rattle.std.specs.Prelude.{◌≡◌, ◌<◌, ◌≤◌, false, [], nat_lt};
ghost use Rattle.numbers.specs.Refusals.{number_or_0};
ghost use Rattle.numbers.specs.Told.{choose};
ghost use Rattle.numbers.specs.Door.{permits, when};
ghost use Rattle.numbers.specs.Limits.{foot_limit, mask_to};
ghost use Rattle.legs.specs.Legs.{points, lifted, marked, finite_point, permitted_point};
ghost use Rattle.legs.specs.Legs.{finite_points, permitted_points, finite_feet, permitted_feet};
ghost use Rattle.legs.specs.Merge.{merged};
ghost use Rattle.legs.specs.Select.{in_six_places, selected};
ghost use Rattle.legs.specs.How.{headed_by};
ghost use Rattle.legs.specs.Update.{updated};

use crate::{Feet, Foot, Point, Points, RowOfSix, flags};
use numbers::door::Limit;
use numbers::{Refusal, door};

/// The six points of six feet.
pub fn points_of(feet: Feet) -> Points
    ensures { result ≡ points feet }
{
    feet.map(|foot| foot.point)
}

/// A foot at this point, with this mark.
pub fn foot_at(point: Point, lifted: bool) -> Foot
    ensures { result ≡ record { point = point; lifted = lifted } }
{
    Foot {
        point: point,
        lifted: lifted,
    }
}

/// Feet at these points, with the marks that other feet have.
pub fn marked_as(feet: Feet, points: Points) -> Feet
    ensures { result ≡ marked (lifted feet) points }
{
    feet.zip_with(points, |foot, point| foot_at(point, foot.lifted))
}

/// Feet at these points, all standing.
pub fn standing(points: Points) -> Feet
    ensures { result ≡ marked (λ l. false) points }
{
    points.map(|point| foot_at(point, false))
}

/// Whether all three coordinates are finite.
pub fn point_finite(p: Point) -> bool
    ensures { result ≡ finite_point p }
{
    door::is_finite(p.x) & door::is_finite(p.y) & door::is_finite(p.z)
}

/// Whether all three coordinates lie between the ends.
pub fn point_permitted(limit: Limit, p: Point) -> bool
    ensures { result ≡ permitted_point limit p }
{
    door::is_permitted(limit, p.x) & door::is_permitted(limit, p.y) & door::is_permitted(limit, p.z)
}

// The same between a foot's own ends. They are constants here, so that the compiler can look at a magnitude once where it would compare
// with each end: on a processor without floats a comparison is a call.
fn point_in_limits(p: Point) -> bool
    ensures { result ≡ permitted_point foot_limit p }
{
    let limit = numbers::limits::foot_limit();
    door::is_permitted(limit, p.x) & door::is_permitted(limit, p.y) & door::is_permitted(limit, p.z)
}

/// Whether all eighteen coordinates are finite.
pub fn points_finite(p: Points) -> bool
    ensures { result ≡ finite_points p }
{
    p.map(|point| point_finite(point)).all()
}

/// Whether all eighteen lie between the ends.
pub fn points_permitted(limit: Limit, p: Points) -> bool
    ensures { result ≡ permitted_points limit p }
{
    p.map(|point| point_permitted(limit, point)).all()
}

/// The same of feet. A foot's mark is no number.
pub fn feet_finite(f: Feet) -> bool
    ensures { result ≡ finite_feet f }
{
    f.map(|foot| point_finite(foot.point)).all()
}

pub fn feet_permitted(limit: Limit, f: Feet) -> bool
    ensures { result ≡ permitted_feet limit f }
{
    f.map(|foot| point_permitted(limit, foot.point)).all()
}

/// Whether six feet are between their ends, by the constants.
pub fn feet_in_limits(f: Feet) -> bool
    ensures { result ≡ permitted_feet foot_limit f }
{
    f.map(|foot| point_in_limits(foot.point)).all()
}

/// Whether a mask names no more than the six legs.
pub fn admit_mask(mask: u32) -> Result<(), Refusal>
    ensures { number_or_0 result ≡ when (nat_lt mask_to mask) 4 }
{
    door::ensure(mask <= 63, Refusal::Mask)
}

/// Exactly the flagged legs from b, the others from a.
#[tactic(auto, unfolding(crate::specs::Merge::merged))]
pub fn merge_with(a: Feet, b: Feet, mask: u32) -> Feet
    ensures { result ≡ merged a b mask }
{
    a.merge_with(b, flags::named(mask))
}

// A row with nothing in it.
fn none_selected() -> RowOfSix
    ensures { result ≡ in_six_places [] }
{
    let origin = Point {
        x: 0.0,
        y: 0.0,
        z: 0.0,
    };
    RowOfSix {
        len: 0,
        feet: [foot_at(origin, false); 6],
    }
}

// With p in the first place and the others each one place on, where the flag stands. A full row stays.
fn headed_by(s: RowOfSix, flag: bool, p: Foot) -> RowOfSix
    ensures { result ≡ headed_by s flag p }
{
    let len = s.len;
    if flag & (len < 6) {
        let six = s.feet;
        RowOfSix {
            len: len + 1,
            feet: [p, six[0], six[1], six[2], six[3], six[4]],
        }
    } else {
        s
    }
}

/// The flagged legs' feet, in row order: from the last leg to the first, each before those after it.
pub fn selected_legs(feet: Feet, mask: u32) -> RowOfSix
    ensures { result ≡ selected feet mask }
{
    let named = flags::named(mask);
    let s = none_selected();
    let s = headed_by(s, named.right_rear, feet.right_rear);
    let s = headed_by(s, named.left_rear, feet.left_rear);
    let s = headed_by(s, named.right_middle, feet.right_middle);
    let s = headed_by(s, named.left_middle, feet.left_middle);
    let s = headed_by(s, named.right_front, feet.right_front);
    headed_by(s, named.left_front, feet.left_front)
}

/// The flagged legs take the row's feet in row order, the others stay.
#[tactic(auto, unfolding(crate::specs::Update::updated))]
pub fn updated(feet: Feet, row: [Foot; 6], mask: u32) -> Feet
    ensures { result ≡ updated feet row mask }
{
    let second = (mask / 1 % 2) as usize;
    let third = second + (mask / 8 % 2) as usize;
    let fourth = third + (mask / 2 % 2) as usize;
    let fifth = fourth + (mask / 16 % 2) as usize;
    let sixth = fifth + (mask / 4 % 2) as usize;
    // Kept: each leg has a place of its own in the row, so that no map over six says it.
    let placed = Feet {
        left_front: row[0],
        left_middle: row[third],
        left_rear: row[fifth],
        right_front: row[second],
        right_middle: row[fourth],
        right_rear: row[sixth],
    };
    feet.merge_with(placed, flags::named(mask))
}
