// Turns about z: a rotation matrix of three rows of three numbers, and the angle between two vectors.
ghost use Rattle.std.specs.Prelude.{◌≡◌};
ghost use Rattle.planner.specs.Turns.{turn, dot, applied, is_zero, rotation_between};
ghost use Rattle.planner.specs.How.{applied_feet};

use legs::{Point, Points};

/// Three rows of three numbers.
pub type Matrix = [[f32; 3]; 3];

/// The matrix of a turn by this angle.
#[tactic(auto, using(crate::proofs::Bits::bits), unfolding(crate::specs::Turns::turn))]
pub fn turn(angle: f32) -> Matrix
    ensures { result ≡ turn angle }
{
    let both = sines::unchecked::sine_and_cosine(angle);
    let c = both.cosine;
    let s = both.sine;
    [[c, 0.0 - s, 0.0], [s, c, 0.0], [0.0, 0.0, 1.0]]
}

// A row's product with a point, summed left to right.
#[tactic(auto, unfolding(crate::specs::Turns::dot))]
#[inline(always)]
fn dot(row: [f32; 3], p: Point) -> f32
    ensures { result ≡ dot row p }
{
    row[0] * p.x + row[1] * p.y + row[2] * p.z
}

/// The point turned.
#[tactic(auto, unfolding(crate::specs::Turns::applied))]
pub fn applied(m: Matrix, p: Point) -> Point
    ensures { result ≡ applied m p }
{
    Point {
        x: dot(m[0], p),
        y: dot(m[1], p),
        z: dot(m[2], p),
    }
}

/// Six feet turned: left front, right middle and left rear by the first, the other three by the second.
// Kept: leg by leg, since `zip_with` over which legs are lifted copies a matrix for each foot on a Cortex-M0, where the planner stands at
// its bar of 0.6 of the Rust program's instructions.
#[tactic(auto, unfolding(crate::specs::How::applied_feet))]
pub fn applied_feet(lrl: Matrix, rlr: Matrix, feet: Points) -> Points
    ensures { result ≡ applied_feet lrl rlr feet }
{
    Points {
        left_front: applied(lrl, feet.left_front),
        left_middle: applied(rlr, feet.left_middle),
        left_rear: applied(lrl, feet.left_rear),
        right_front: applied(rlr, feet.right_front),
        right_middle: applied(lrl, feet.right_middle),
        right_rear: applied(rlr, feet.right_rear),
    }
}

// Whether a vector is zero in x and y.
#[tactic(auto, using(crate::proofs::Bits::bits))]
fn is_zero(v: Point) -> bool
    ensures { result ≡ is_zero v }
{
    v.x == 0.0 && v.y == 0.0
}

/// The angle from the first vector to the second, in x and y, as they stand; 0 where either is zero.
#[tactic(auto, using(crate::proofs::Bits::bits), unfolding(crate::specs::Turns::rotation_between))]
pub fn rotation_between(a: Point, b: Point) -> f32
    ensures { result ≡ rotation_between a b }
{
    if is_zero(a) || is_zero(b) {
        0.0
    } else {
        arcs::unchecked::atan2(a.x * b.y - a.y * b.x, a.x * b.x + a.y * b.y)
    }
}
