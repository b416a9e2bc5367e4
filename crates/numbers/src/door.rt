// The tests of the door. Every one takes every bit pattern.
ghost use Rattle.std.specs.Prelude.{◌≡◌, [], ◌∷◌, T, IfOk};
ghost use Rattle.numbers.specs.Answers.{told};
ghost use Rattle.numbers.specs.Told.{choose, answer, given};
ghost use Rattle.numbers.specs.Refusals.{number_of, number_or_0};
ghost use Rattle.numbers.specs.Door.{finite, permits, unless};

use crate::refusal::Refusal;

/// Two ends, both permitted.
#[derive(Clone, Copy, Debug, PartialEq)]
pub struct Limit {
    pub from: f32,
    pub to: f32,
}

/// Whether x is neither NaN nor infinite.
pub fn is_finite(x: f32) -> bool
    ensures { result ≡ finite x }
{
    let top = f32::from_bits(0x7f80_0000);
    (x < top) & (-top < x)
}

/// x where it is finite, else why not.
pub fn finite(x: f32) -> Result<f32, Refusal>
    ensures exact { told result ≡ answer (unless (finite x) 1) (given [] (x ∷ [])) }
    ensures same { IfOk result (λ y. y ≡ x) }
{
    if is_finite(x) {
        Ok(x)
    } else {
        Err(Refusal::NotFinite)
    }
}

impl Limit {
    ghost use Rattle.numbers.specs.Door.{refusal_of};

    /// A number between the ends, or why it is none: the lowest number that applies.
    pub fn admit(self, x: f32) -> Result<f32, Refusal>
        ensures exact { told result ≡ answer (refusal_of self x) (given [] (x ∷ [])) }
        ensures same { IfOk result (λ y. y ≡ x) }
        ensures within { IfOk result (λ y. T (permits self y)) }
    {
        if !is_finite(x) {
            Err(Refusal::NotFinite)
        } else if is_permitted(self, x) {
            Ok(x)
        } else {
            Err(Refusal::Outside)
        }
    }
}

/// Whether x lies between the ends, ends included. A NaN does not; -0 counts as 0.
pub fn is_permitted(limit: Limit, x: f32) -> bool
    ensures { result ≡ permits limit x }
{
    (limit.from <= x) & (x <= limit.to)
}

/// Why numbers that are not all permitted are turned away: one lies outside, or they are not even all finite.
/// What lies between two finite ends is finite, so that the test of the row alone lets numbers through.
pub fn outside(all_finite: bool) -> Refusal
    ensures { number_of result ≡ choose all_finite 2 1 }
{
    if all_finite {
        Refusal::Outside
    } else {
        Refusal::NotFinite
    }
}

/// Nothing where the test holds, else the refusal.
pub fn ensure(holds: bool, refusal: Refusal) -> Result<(), Refusal>
    ensures { number_or_0 result ≡ unless holds (number_of refusal) }
{
    if holds { Ok(()) } else { Err(refusal) }
}
