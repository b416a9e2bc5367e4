// Sine and cosine behind the door, total on every value, for the rooms above. A number outside the
// table of permitted numbers gives +0.
ghost use Rattle.std.specs.Prelude.{◌≡◌, ◌≤◌, T};
ghost use Rattle.numbers.specs.Door.{permits};
ghost use Rattle.numbers.specs.Limits.{sine_argument};
ghost use Rattle.units.specs.Patterns.{sign_set};
ghost use Rattle.sines.specs.How.{sixteen, count, fixed_sine, fixed_cosine, last_place};
ghost use Rattle.sines.specs.How.{sine, cosine, turn};
ghost use Rattle.sines.specs.Bands.{SineOf, CosineOf};

use crate::fixed;
use numbers::{door, limits};

// Whether x is within document 01's limits for an angle.
pub(crate) fn permitted(x: f32) -> bool
    ensures { result ≡ permits sine_argument x }
{
    door::is_permitted(limits::sine_argument(), x)
}

/// The sine of x radians.
pub fn sine(x: f32) -> f32
    ensures exact { result ≡ sine x }
    ensures band { T (permits sine_argument x) → SineOf x result }
{
    if permitted(x) { inside_sine(x) } else { 0.0 }
}

/// The cosine of x radians.
pub fn cosine(x: f32) -> f32
    ensures exact { result ≡ cosine x }
    ensures band { T (permits sine_argument x) → CosineOf x result }
{
    if permitted(x) { inside_cosine(x) } else { 0.0 }
}

/// The sine and the cosine of one angle.
#[derive(Clone, Copy)]
pub struct Turn {
    pub sine: f32,
    pub cosine: f32,
}

/// Both of x radians.
pub fn sine_and_cosine(x: f32) -> Turn
    ensures { (result.sine ≡ sine x) × (result.cosine ≡ cosine x) }
{
    let n = count_of(x);
    let at = fixed::entry_of(n);
    turned(x, n, fixed::both_at(n, at.0, at.1))
}

// The unit that results are counted in, 2^-24.
const LAST_PLACE: f32 = 0.000000059604644775390625;

// The same with the sign of the number whose bits are b.
fn last_place_of(b: u32) -> f32
    ensures { result ≡ last_place (sign_set b) }
{
    if 0x8000_0000 <= b {
        -LAST_PLACE
    } else {
        LAST_PLACE
    }
}

// Below 2^-12 (pattern 0x3980_0000) the sine is x itself, nearer than 2^-38. S is odd.
pub(crate) fn inside_sine(x: f32) -> f32
    requires { T (permits sine_argument x) }
    ensures { result ≡ sine x }
{
    let b = f32::to_bits(x);
    let m = b % 0x8000_0000;
    if m < 0x3980_0000 {
        return x;
    }
    let n = fixed::fixed_of(m);
    let at = fixed::entry_of(n);
    fixed::counted(last_place_of(b), fixed::both_at(n, at.0, at.1).sine)
}

// Below 2^-12 the cosine is 1, nearer than 2^-25. C is even.
pub(crate) fn inside_cosine(x: f32) -> f32
    requires { T (permits sine_argument x) }
    ensures { result ≡ cosine x }
{
    let m = f32::to_bits(x) % 0x8000_0000;
    if m < 0x3980_0000 {
        return 1.0;
    }
    let n = fixed::fixed_of(m);
    let at = fixed::entry_of(n);
    fixed::counted(LAST_PLACE, fixed::both_at(n, at.0, at.1).cosine)
}

// x as a count of 2^-35; below 2^-12 it is 1, which no other number has, and outside the table 0.
// Kept: a number for each case and no enum: it is the definition `count`, and eighteen of them are a row that vectors take.
pub(crate) fn count_of(x: f32) -> u64
    ensures { (result ≡ count x) × (result ≤ sixteen) }
{
    if permitted(x) {
        let m = f32::to_bits(x) % 0x8000_0000;
        if m < 0x3980_0000 {
            1
        } else {
            fixed::fixed_of(m)
        }
    } else {
        0
    }
}

// Sine and cosine of x, by its count and what the whole numbers give for that.
pub(crate) fn turned(x: f32, n: u64, both: fixed::Pair) -> Turn
    requires { (n ≡ count x) × (both.sine ≡ fixed_sine n) × (both.cosine ≡ fixed_cosine n) }
    ensures { result ≡ turn x }
{
    if n == 0 {
        Turn {
            sine: 0.0,
            cosine: 0.0,
        }
    } else if n == 1 {
        Turn {
            sine: x,
            cosine: 1.0,
        }
    } else {
        Turn {
            sine: fixed::counted(last_place_of(f32::to_bits(x)), both.sine),
            cosine: fixed::counted(LAST_PLACE, both.cosine),
        }
    }
}
