// The operations behind the door, total on every value, for the rooms above.
ghost use Rattle.std.specs.Prelude.{◌≡◌};
ghost use Rattle.numbers.specs.Told.{choose};
ghost use Rattle.planner.specs.Plan.{trio_of, summed, in_row, level, center_point, between, average_rotation, ready_foot, planned};
ghost use Rattle.planner.specs.How.{ready_feet};

use crate::turns;
use commands::{MoveCommand, Tripod};
use legs::{Point, Points};

/// The three standing feet, in the order in which they are summed.
#[derive(Clone, Copy)]
pub struct Trio {
    pub first: Point,
    pub second: Point,
    pub third: Point,
}

// Three feet, in that order.
fn three(first: Point, second: Point, third: Point) -> Trio
    ensures { result ≡ trio_of first second third }
{
    Trio {
        first,
        second,
        third,
    }
}

// The standing three in the order in which the source sums their points.
fn summed(lifted: Tripod, feet: Points) -> Trio
    ensures { result ≡ summed lifted feet }
{
    match lifted {
        Tripod::LRL => three(feet.left_middle, feet.right_front, feet.right_rear),
        Tripod::RLR => three(feet.left_front, feet.left_rear, feet.right_middle),
    }
}

// The standing three in the order of a row, in which the source sums their angles.
fn in_row(lifted: Tripod, feet: Points) -> Trio
    ensures { result ≡ in_row lifted feet }
{
    match lifted {
        Tripod::LRL => three(feet.right_front, feet.left_middle, feet.right_rear),
        Tripod::RLR => three(feet.left_front, feet.right_middle, feet.left_rear),
    }
}

// The centre of three feet, in x and y.
#[tactic(auto, using(crate::proofs::Bits::bits), unfolding(crate::specs::Plan::center_point))]
fn center_point(t: Trio) -> Point
    ensures { result ≡ center_point t }
{
    Point {
        x: (t.first.x + t.second.x + t.third.x) / 3.0,
        y: (t.first.y + t.second.y + t.third.y) / 3.0,
        z: 0.0,
    }
}

// The way from a to b, in x and y.
#[tactic(auto, using(crate::proofs::Bits::bits), unfolding(crate::specs::Plan::between))]
fn between(a: Point, b: Point) -> Point
    ensures { result ≡ between a b }
{
    Point {
        x: b.x - a.x,
        y: b.y - a.y,
        z: 0.0,
    }
}

// The mean angle from the start's vectors, taken from their centre, to the relaxed ones, which are not.
#[tactic(auto, using(crate::proofs::Bits::bits), unfolding(crate::specs::Plan::average_rotation))]
fn average_rotation(start: Trio, middle: Point, relaxed: Trio) -> f32
    ensures { result ≡ average_rotation start middle relaxed }
{
    let a = turns::rotation_between(between(middle, start.first), relaxed.first);
    let b = turns::rotation_between(between(middle, start.second), relaxed.second);
    let c = turns::rotation_between(between(middle, start.third), relaxed.third);
    (a + b + c) / 3.0
}

// A foot before its turn: a lifted one ahead of its relaxed place by the linear motion, a standing one back by it, after the translation.
// Both lead sideways alone: their third component is 0, a constant here, so that the compiler can leave out what takes it away.
fn ready_foot(lifted: bool, start: Point, relaxed: Point, motion: Point, shift: Point) -> Point
    ensures { result ≡ ready_foot lifted start relaxed (level motion.x motion.y) (level shift.x shift.y) }
{
    if lifted {
        Point {
            x: relaxed.x + motion.x,
            y: relaxed.y + motion.y,
            z: relaxed.z + 0.0,
        }
    } else {
        Point {
            x: start.x + shift.x - motion.x,
            y: start.y + shift.y - motion.y,
            z: start.z + 0.0 - 0.0,
        }
    }
}

// Six feet before their turns.
// Kept: leg by leg, as `turns::applied_feet` is, and for its reason.
#[tactic(auto, unfolding(crate::specs::How::ready_feet))]
fn ready_feet(lrl: bool, start: Points, relaxed: Points, motion: Point, shift: Point) -> Points
    ensures { result ≡ ready_feet lrl start relaxed (level motion.x motion.y) (level shift.x shift.y) }
{
    Points {
        left_front: ready_foot(lrl, start.left_front, relaxed.left_front, motion, shift),
        left_middle: ready_foot(!lrl, start.left_middle, relaxed.left_middle, motion, shift),
        left_rear: ready_foot(lrl, start.left_rear, relaxed.left_rear, motion, shift),
        right_front: ready_foot(!lrl, start.right_front, relaxed.right_front, motion, shift),
        right_middle: ready_foot(lrl, start.right_middle, relaxed.right_middle, motion, shift),
        right_rear: ready_foot(!lrl, start.right_rear, relaxed.right_rear, motion, shift),
    }
}

// The first number where the flag stands, else the second.
fn chosen(flag: bool, x: f32, y: f32) -> f32
    ensures { result ≡ choose flag x y }
{
    if flag { x } else { y }
}

/// The next target of all six feet.
pub fn step_with_relaxed_transformation(
    start: Points,
    relaxed: Points,
    lifted_tripod: Tripod,
    command: MoveCommand,
) -> Points
    ensures { result ≡ planned start relaxed lifted_tripod command }
{
    let linear_motion = Point {
        x: command.direction_x,
        y: command.direction_y,
        z: 0.0,
    };
    let start_center_point = center_point(summed(lifted_tripod, start));
    let relaxed_center_point = center_point(summed(lifted_tripod, relaxed));
    let translation = between(start_center_point, relaxed_center_point);
    let average = average_rotation(
        in_row(lifted_tripod, start),
        start_center_point,
        in_row(lifted_tripod, relaxed),
    );
    let rotation = command.rotation / 2.0;
    let correcting_rotation = average + -command.rotation / 2.0;
    let lrl = commands::unchecked::is_lrl(lifted_tripod);
    let first = turns::turn(chosen(lrl, rotation, correcting_rotation));
    let second = turns::turn(chosen(lrl, correcting_rotation, rotation));
    turns::applied_feet(
        first,
        second,
        ready_feet(lrl, start, relaxed, linear_motion, translation),
    )
}
