// Arc cosine and atan2 behind the door, total on every value, for the rooms above. Arc cosine of
// what is not from -1 to 1, and atan2 of what is not finite, is +0.
ghost use Rattle.std.specs.Prelude.{◌≡◌, ◌&&◌, T};
ghost use Rattle.numbers.specs.Door.{finite, permits};
ghost use Rattle.numbers.specs.Limits.{arc_cosine_argument};
ghost use Rattle.arcs.specs.How.{arc_cosine, atan2};
ghost use Rattle.arcs.specs.Wedges.{ArcCosineOf, Atan2Of};

use crate::{angle, arc_sine, digits};
use numbers::{door, limits};

/// The angle whose cosine is q, in radians.
pub fn arc_cosine(q: f32) -> f32
    ensures exact { result ≡ arc_cosine q }
    ensures band { T (permits arc_cosine_argument q) → ArcCosineOf q result }
{
    if door::is_permitted(limits::arc_cosine_argument(), q) {
        inside_arc_cosine(q)
    } else {
        0.0
    }
}

/// The angle of the vector (x, y), in radians.
pub fn atan2(y: f32, x: f32) -> f32
    ensures exact { result ≡ atan2 y x }
    ensures band { T (finite y && finite x) → Atan2Of y x result }
{
    if door::is_finite(y) & door::is_finite(x) {
        finite_atan2(y, x)
    } else {
        0.0
    }
}

// Up to 45/64, which is 0x3f34_0000, by its arc sine, else the angle of (q, root of 1 - q²). The sign
// bit is 2^31.
pub(crate) fn inside_arc_cosine(q: f32) -> f32
    requires { T (permits arc_cosine_argument q) }
    ensures { result ≡ arc_cosine q }
{
    let b = f32::to_bits(q);
    let i = b % 0x8000_0000;
    if i <= 0x3f34_0000 {
        let w = digits::digits(f32::from_bits(i));
        return digits::scaled(false, arc_sine::upright(0x8000_0000 <= b, w));
    }
    finite_atan2(roots::unchecked::square_root((1.0 - q) * (1.0 + q)), q)
}

// Of two zeros it is y's zero, or P with y's sign where x is -0. P is 13176795 units of 2^-22; the
// sign bit is 2^31.
pub(crate) fn finite_atan2(y: f32, x: f32) -> f32
    requires { T (finite y && finite x) }
    ensures { result ≡ atan2 y x }
{
    let a = f32::to_bits(x);
    let b = f32::to_bits(y);
    let i = a % 0x8000_0000;
    let j = b % 0x8000_0000;
    let left = 0x8000_0000 <= a;
    let below = 0x8000_0000 <= b;
    let steep = i < j;
    let larger = angle::chosen(steep, j, i);
    if larger == 0 {
        return digits::scaled(below, angle::chosen(left, 13176795, 0));
    }
    let w = digits::ratio(
        f32::from_bits(angle::chosen(steep, i, j)),
        f32::from_bits(larger),
    );
    digits::scaled(below, angle::angle(steep, left, w))
}
