// The angle of a cosine near 0: a quarter turn less its arc sine, in whole numbers. No root, no
// division.
ghost use Rattle.std.specs.Prelude.{◌≡◌, ◌<◌, ◌≤◌};
ghost use Rattle.arcs.specs.How as how;

use crate::{angle, arc_sine_table};

// The arc sine of w units of 2^-25, in units of 2^-30: the table's polynomial. A row is 2^18 wide; w is
// below 91/128.
fn arc_sine(w: u32) -> u32
    requires { w < 23855104 }
    ensures { (result ≡ how.arc_sine w) × (result ≤ 850000000) }
{
    let row = arc_sine_table::entry(w / 0x4_0000);
    let d = (w % 0x4_0000) as u64;
    let rate = row.1 as u64 + d * row.2 as u64 / 0x4_0000;
    row.0 + (d * rate / 0x4_0000) as u32
}

/// The angle whose cosine is w units of 2^-25, or the negative of that where left, rounded to units of
/// 2^-22. A quarter turn is 1686629713 units of 2^-30.
pub fn upright(left: bool, w: u32) -> u32
    requires { w < 23855104 }
    ensures { (result ≡ how.upright left w) × (result ≤ 13176795) }
{
    let t = arc_sine(w);
    (angle::chosen(left, 1686629713 + t, 1686629713 - t) + 128) / 256
}
