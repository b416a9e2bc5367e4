// The angle of a vector by the ratio of its sides, in whole numbers: the one function behind arc
// cosine and atan2. No loop, no division.
ghost use Rattle.std.specs.Prelude.{◌≡◌, ◌^◌, ◌≤◌, if◌then◌else◌};
ghost use Rattle.arcs.specs.How as how;

use crate::table;

/// The first where the flag stands, else the second.
pub fn chosen(flag: bool, a: u32, b: u32) -> u32
    ensures { result ≡ (if flag then a else b) }
{
    if flag { a } else { b }
}

// Kept: w is at most 2^25 in three functions in a row. A type for that would wrap and unwrap one number at each call.

// The angle of (2^25, w), in units of 2^-30: the table's angle of (128, k), and two terms of the arc
// tangent's series there. A row is 2^18 wide; the terms lose 26 and 37 digits.
fn slope(w: u32) -> u32
    requires { w ≤ 2 ^ 25 }
    ensures { (result ≡ how.slope w) × (result ≤ 851703465) }
{
    let k = w / 0x4_0000;
    let row = table::entry(k);
    let straight = (w % 0x4_0000) as u64 * row.1 as u64 / 0x400_0000;
    let bend = straight * straight * k as u64 / 0x20_0000_0000;
    row.0 + (straight - bend) as u32
}

// The angle of (2^25, w), or of (w, 2^25) where steep: at most a quarter turn, which is 1686629713
// units of 2^-30.
fn sharp(steep: bool, w: u32) -> u32
    requires { w ≤ 2 ^ 25 }
    ensures { (result ≡ how.sharp steep w) × (result ≤ how.quarter) }
{
    let t = slope(w);
    chosen(steep, 1686629713 - t, t)
}

/// That, or a half turn less it where left, rounded to units of 2^-22. A half turn is 3373259426 units
/// of 2^-30; P is 13176795 of 2^-22.
pub fn angle(steep: bool, left: bool, w: u32) -> u32
    requires { w ≤ 2 ^ 25 }
    ensures { (result ≡ how.angle steep left w) × (result ≤ 13176795) }
{
    let t = sharp(steep, w);
    (chosen(left, 3373259426 - t, t) + 128) / 256
}
