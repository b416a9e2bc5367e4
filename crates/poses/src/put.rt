// A pose's text, stored into a lent row from a place on; each function gives the place after what it stored.
ghost use Rattle.std.specs.Prelude.{◌≡◌, ◌+◌, ◌%◌, ◌^◌, ◌<◌, ◌≤◌, true, T, [], ◌∷◌, ◌++◌, length};
ghost use Rattle.numbers.specs.Door.{permits};
ghost use Rattle.numbers.specs.Limits.{foot_limit};
ghost use Rattle.legs.specs.Legs.{permitted_point};
ghost use Rattle.lines.specs.Digits.{digit, numeral};
ghost use Rattle.numbers.specs.Stored.{Stored};
ghost use Rattle.legs.specs.LegNumbers.{leg_number};
ghost use Rattle.poses.specs.Names.{name_at};
ghost use Rattle.poses.specs.Writing.{minus_text, parts_text, number_text, point_text, foot_text, named_text, pose_text};
ghost use Rattle.poses.specs.Writing.{foot_permitted, pose_permitted};

use crate::{OptionalFoot, OptionalLegPositions, decimals, names};
use legs::{Leg, Point};

// One byte.
fn byte(row: &mut [u8], at: usize, b: u8) -> usize
    requires { at + 1 ≤ length row.old }
    ensures { Stored row.old at (b ∷ []) result row.new }
{
    row[at] = b;
    at + 1
}

// The byte of a number's last digit.
fn digit(n: u32) -> u8
    ensures { result ≡ digit (n % 10) }
{
    48 + (n % 10) as u8
}

// Eight digits.
// Kept: a loop is no plainer: eight stores at known places need no invariant, and no division more.
fn eight(row: &mut [u8], at: usize, n: u32) -> usize
    requires { at + 8 ≤ length row.old }
    ensures { Stored row.old at (numeral 10 8 n) result row.new }
{
    let n6 = n / 10;
    let n5 = n6 / 10;
    let n4 = n5 / 10;
    let n3 = n4 / 10;
    let n2 = n3 / 10;
    let n1 = n2 / 10;
    let n0 = n1 / 10;
    row[at] = digit(n0);
    row[at + 1] = digit(n1);
    row[at + 2] = digit(n2);
    row[at + 3] = digit(n3);
    row[at + 4] = digit(n4);
    row[at + 5] = digit(n5);
    row[at + 6] = digit(n6);
    row[at + 7] = digit(n);
    at + 8
}

// One digit, a point, eight digits.
fn parts(row: &mut [u8], at: usize, n: u32) -> usize
    requires { (at + 10 ≤ length row.old) × (n < 10 ^ 9) }
    ensures { Stored row.old at (parts_text n) result row.new }
{
    let a = byte(row, at, digit(n / 100_000_000));
    let b = byte(row, a, b'.');
    eight(row, b, n % 100_000_000)
}

// The minus, where there is one.
fn minus(row: &mut [u8], at: usize, is_minus: bool) -> usize
    requires { at + 1 ≤ length row.old }
    ensures { Stored row.old at (minus_text is_minus) result row.new × (result ≤ at + 1) }
{
    if is_minus {
        return byte(row, at, b'-');
    }
    at
}

// A number: its sign, one digit, a point, eight digits.
fn number(row: &mut [u8], at: usize, x: f32) -> usize
    requires { (at + 11 ≤ length row.old) × T (permits foot_limit x) }
    ensures { Stored row.old at (number_text x) result row.new × (result ≤ at + 11) }
{
    let a = minus(row, at, 0x8000_0000 <= f32::to_bits(x));
    parts(row, a, decimals::written_as(x) as u32)
}

// A list of three numbers.
fn point(row: &mut [u8], at: usize, p: Point) -> usize
    requires { (at + 37 ≤ length row.old) × (permitted_point foot_limit p ≡ true) }
    ensures { Stored row.old at (point_text p) result row.new × (result ≤ at + 37) }
{
    let a = byte(row, at, b'[');
    let x = number(row, a, p.x);
    let b = byte(row, x, b',');
    let y = number(row, b, p.y);
    let c = byte(row, y, b',');
    let z = number(row, c, p.z);
    byte(row, z, b']')
}

// These bytes.
fn bytes(row: &mut [u8], at: usize, text: &[u8]) -> usize
    requires { at + length text.now ≤ length row.old }
    ensures { Stored row.old at text.now result row.new }
{
    let end = at + text.len();
    row[at..end].copy_from_slice(text);
    end
}

// A foot or null. Its mark is not written.
fn foot(row: &mut [u8], at: usize, f: OptionalFoot) -> usize
    requires { (at + 37 ≤ length row.old) × (foot_permitted f ≡ true) }
    ensures { Stored row.old at (foot_text f) result row.new × (result ≤ at + 37) }
{
    match f {
        Some(foot) => point(row, at, foot.point),
        None => bytes(row, at, b"null"),
    }
}

// A leg's name, quoted, a colon, and its value.
fn member(row: &mut [u8], at: usize, leg: Leg, f: OptionalFoot) -> usize
    requires { (at + 52 ≤ length row.old) × (foot_permitted f ≡ true) }
    ensures { Stored row.old at (named_text (name_at (leg_number leg)) f) result row.new × (result ≤ at + 52) }
{
    let a = byte(row, at, b'"');
    let b = bytes(row, a, names::name_of(leg));
    let c = byte(row, b, b'"');
    let d = byte(row, c, b':');
    foot(row, d, f)
}

// A member and what stands behind it: a comma, or what closes the object.
fn closed(row: &mut [u8], at: usize, leg: Leg, f: OptionalFoot, b: u8) -> usize
    requires { (at + 53 ≤ length row.old) × (foot_permitted f ≡ true) }
    ensures { Stored row.old at (named_text (name_at (leg_number leg)) f ++ (b ∷ [])) result row.new × (result ≤ at + 53) }
{
    let a = member(row, at, leg, f);
    byte(row, a, b)
}

/// The whole object, in the source's field order.
pub fn pose(row: &mut [u8], p: OptionalLegPositions) -> usize
    requires { (length row.old ≡ 512) × (pose_permitted p ≡ true) }
    ensures { Stored row.old 0 (pose_text p) result row.new }
{
    let a = byte(row, 0, b'{');
    let b = closed(row, a, Leg::LeftFront, p.left_front, b',');
    let c = closed(row, b, Leg::LeftMiddle, p.left_middle, b',');
    let d = closed(row, c, Leg::LeftRear, p.left_rear, b',');
    let e = closed(row, d, Leg::RightFront, p.right_front, b',');
    let f = closed(row, e, Leg::RightMiddle, p.right_middle, b',');
    closed(row, f, Leg::RightRear, p.right_rear, b'}')
}
