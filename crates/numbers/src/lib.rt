// The door: what every public entry asks of the numbers that come in, document 01's table of
// permitted numbers, its refusals, and the three operations that take every finite number.
#![tactic(auto)]

ghost use Rattle.std.specs.Prelude.{◌≡◌};
ghost use Rattle.numbers.specs.Answers.{told};
ghost use Rattle.numbers.specs.Finite.{absolute_told, min_told, max_told};

pub mod door;
pub mod limits;
pub mod patterns;
mod refusal;
pub mod unchecked;

pub use refusal::Refusal;

/// The magnitude of a finite number.
pub fn absolute(x: f32) -> Result<f32, Refusal>
    ensures { told result ≡ absolute_told x }
{
    Ok(unchecked::absolute(door::finite(x)?))
}

/// The smaller of two finite numbers; of equal ones the first.
pub fn min(x: f32, y: f32) -> Result<f32, Refusal>
    ensures { told result ≡ min_told x y }
{
    Ok(unchecked::min(door::finite(x)?, door::finite(y)?))
}

/// The larger of two finite numbers; of equal ones the first.
pub fn max(x: f32, y: f32) -> Result<f32, Refusal>
    ensures { told result ≡ max_told x y }
{
    Ok(unchecked::max(door::finite(x)?, door::finite(y)?))
}
