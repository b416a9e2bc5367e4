// Arc cosine and atan2 of f32: one division of f32 for the ratio of a vector's sides, then whole
// numbers of at most 64 bits, a table of 129 angles and two terms of a series for the rest. Arc
// cosine is the angle of (q, root of 1 - q²), and for q up to 45/64 a quarter turn less an arc sine
// by a table of its own, without root and division.
#![tactic(auto)]

ghost use Rattle.std.specs.Prelude.{◌≡◌, IfOk};
ghost use Rattle.numbers.specs.Answers.{told};
ghost use Rattle.numbers.specs.Refusals.{number_or_0};
ghost use Rattle.arcs.specs.Entries.{arc_cosine_told, atan2_refusal, atan2_told};
ghost use Rattle.arcs.specs.Wedges.{ArcCosineOf, Atan2Of};

use numbers::{Refusal, door, limits};

mod angle;
mod arc_sine;
mod arc_sine_table;
mod digits;
mod table;
pub mod unchecked;

/// Why (y, x) is turned away: 1 if either is a NaN or an infinity, 2 if either is outside -128 to 128.
fn admit_atan2(y: f32, x: f32) -> Result<(), Refusal>
    ensures { number_or_0 result ≡ atan2_refusal y x }
{
    let y_permitted = door::is_permitted(limits::atan2_argument(), y);
    let x_permitted = door::is_permitted(limits::atan2_argument(), x);
    if y_permitted & x_permitted {
        Ok(())
    } else {
        Err(door::outside(door::is_finite(y) & door::is_finite(x)))
    }
}

/// The angle from 0 to P radians whose cosine is q, for q from -1 to 1.
pub fn arc_cosine(q: f32) -> Result<f32, Refusal>
    ensures exact { told result ≡ arc_cosine_told q }
    ensures band { IfOk result (ArcCosineOf q) }
{
    Ok(unchecked::inside_arc_cosine(limits::arc_cosine_argument().admit(q)?))
}

/// The angle of the vector (x, y) from -P to P radians, with y's sign, for x and y from -128 to 128.
#[tactic(auto, using(numbers::proofs::Admitted::entry))]
pub fn atan2(y: f32, x: f32) -> Result<f32, Refusal>
    ensures exact { told result ≡ atan2_told y x }
    ensures band { IfOk result (Atan2Of y x) }
{
    admit_atan2(y, x)?;
    Ok(unchecked::finite_atan2(y, x))
}
