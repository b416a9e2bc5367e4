// From f32 to whole numbers, and back.
ghost use Rattle.std.specs.Prelude.{◌≡◌, ◌^◌, ◌≤◌, negsuc};
ghost use Rattle.std.specs.Float.{fin};
ghost use Rattle.units.specs.Units.{mag};
ghost use Rattle.arcs.specs.How.{Proper, Sorted, digits, ratio, in_radians};

// 2^-22, the unit of an angle, or its negative.
fn angle_unit(below: bool) -> f32
    ensures { result ≡ fin below 1 (negsuc 21) }
{
    if below {
        -0.0000002384185791015625
    } else {
        0.0000002384185791015625
    }
}

/// A whole number of 2^-22 as an f32, at most P. The sign is the unit's, so that nothing waits for a
/// guess at it.
pub fn scaled(below: bool, a: u32) -> f32
    requires { a ≤ 13176795 }
    ensures { result ≡ in_radians below a }
{
    a as f32 * angle_unit(below)
}

/// A number from 0 to 1 in units of 2^-25. A 1 before it leaves 23 of its digits, and they stand in the
/// sum's bits past those of 1, which are 0x3f80_0000.
pub fn digits(u: f32) -> u32
    requires { Proper u }
    ensures { (result ≡ digits (mag u)) × (result ≤ 2 ^ 25) }
{
    4 * (f32::to_bits(1.0 + u) - 0x3f80_0000)
}

/// u / v in units of 2^-25.
pub fn ratio(u: f32, v: f32) -> u32
    requires { Sorted u v }
    ensures { (result ≡ ratio (mag u) (mag v)) × (result ≤ 2 ^ 25) }
{
    digits(u / v)
}
