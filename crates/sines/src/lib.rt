// Sine and cosine of an f32, by whole numbers of at most 64 bits and one table of about 1 KB.
#![tactic(auto)]

ghost use Rattle.std.specs.Prelude.{◌≡◌, IfOk};
ghost use Rattle.numbers.specs.Answers.{told};
ghost use Rattle.sines.specs.Entries.{sine_told, cosine_told};
ghost use Rattle.sines.specs.Bands.{SineOf, CosineOf};

use numbers::{Refusal, limits};

pub mod eighteen;
mod fixed;
mod table;
pub mod unchecked;

/// The sine of x radians, from -16 to 16.
pub fn sine(x: f32) -> Result<f32, Refusal>
    ensures exact { told result ≡ sine_told x }
    ensures band { IfOk result (SineOf x) }
{
    Ok(unchecked::inside_sine(limits::sine_argument().admit(x)?))
}

/// The cosine of x radians, from -16 to 16.
pub fn cosine(x: f32) -> Result<f32, Refusal>
    ensures exact { told result ≡ cosine_told x }
    ensures band { IfOk result (CosineOf x) }
{
    Ok(unchecked::inside_cosine(limits::sine_argument().admit(x)?))
}
