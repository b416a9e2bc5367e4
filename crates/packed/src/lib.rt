// Numbers, floats, points and feet in lent bytes, lowest byte first.
#![tactic(auto)]

ghost use Rattle.std.specs.Prelude.{◌≡◌, true, ◌+◌, ◌≤◌, length};
ghost use Rattle.std.proofs.lemmas.List.Edits.{sets};
ghost use Rattle.numbers.specs.Door.{finite};
ghost use Rattle.legs.specs.Answers.{lifts};
ghost use Rattle.legs.specs.Legs.{finite_point, finite_feet};
ghost use Rattle.packed.specs.Packed.{pair_at, word_at, long_at, float_at, point_at, foot_at, feet_at, feet_in};
ghost use Rattle.packed.specs.Packed.{pair_bytes, word_bytes, long_bytes, float_bytes, point_bytes, points_bytes, feet_bytes};

use legs::{Feet, Foot, Point};

/// The number of two bytes from a place on.
#[tactic(auto, unfolding(crate::specs::Packed::pair_at))]
pub fn pair_at(s: &[u8], at: usize) -> u16
    requires { at + 2 ≤ length s.now }
    ensures { result ≡ pair_at s.now at }
{
    u16::from_le_bytes([s[at], s[at + 1]])
}

/// The number of four bytes from a place on.
#[tactic(auto, unfolding(crate::specs::Packed::word_at))]
pub fn word_at(s: &[u8], at: usize) -> u32
    requires { at + 4 ≤ length s.now }
    ensures { result ≡ word_at s.now at }
{
    u32::from_le_bytes([s[at], s[at + 1], s[at + 2], s[at + 3]])
}

/// The number of eight bytes: the low four, and the high four.
#[tactic(auto, unfolding(crate::specs::Packed::long_at))]
pub fn long_at(s: &[u8], at: usize) -> u64
    requires { at + 8 ≤ length s.now }
    ensures { result ≡ long_at s.now at }
{
    u64::from(word_at(s, at)) + (u64::from(word_at(s, at + 4)) << 32)
}

/// The float of four bytes; every NaN pattern gives a NaN.
#[tactic(auto, unfolding(crate::specs::Packed::float_at))]
pub fn float_at(s: &[u8], at: usize) -> f32
    requires { at + 4 ≤ length s.now }
    ensures { result ≡ float_at s.now at }
{
    numbers::patterns::from_pattern(word_at(s, at))
}

/// The point of twelve bytes.
#[tactic(auto, unfolding(crate::specs::Packed::point_at))]
pub fn point_at(s: &[u8], at: usize) -> Point
    requires { at + 12 ≤ length s.now }
    ensures { result ≡ point_at s.now at }
{
    Point {
        x: float_at(s, at),
        y: float_at(s, at + 4),
        z: float_at(s, at + 8),
    }
}

// The foot whose mark stands at one place and whose point at another.
fn foot_at(s: &[u8], mark: usize, at: usize) -> Foot
    requires { (mark + 1 ≤ length s.now) × (at + 12 ≤ length s.now) }
    ensures { result ≡ foot_at s.now mark at }
{
    Foot {
        point: point_at(s, at),
        lifted: s[mark] == 1,
    }
}

/// The feet of 78 bytes.
#[tactic(auto, using(crate::proofs::Storing::feet_at_once))]
pub fn feet_at(s: &[u8], at: usize) -> Feet
    requires { at + 78 ≤ length s.now }
    ensures { result ≡ feet_at s.now at }
{
    feet_in(s, at, at + 6)
}

/// The feet whose six marks stand from one place on, and whose 72 bytes of points from another.
// Kept: place by place. A closure over the number of the foot costs a board a multiplication of 64 bits for each foot.
#[tactic(auto, using(crate::proofs::Storing::row_back), unfolding(crate::specs::Packed::feet_in))]
pub fn feet_in(s: &[u8], marks: usize, at: usize) -> Feet
    requires { (marks + 6 ≤ length s.now) × (at + 72 ≤ length s.now) }
    ensures { result ≡ feet_in s.now marks at }
{
    Feet::from_legs([
        foot_at(s, marks, at),
        foot_at(s, marks + 1, at + 12),
        foot_at(s, marks + 2, at + 24),
        foot_at(s, marks + 3, at + 36),
        foot_at(s, marks + 4, at + 48),
        foot_at(s, marks + 5, at + 60),
    ])
}

// A run of bytes goes in from a place on.
#[tactic(auto, using(crate::proofs::Runs::put_is))]
fn put<const N: usize>(s: &mut [u8], at: usize, bytes: [u8; N])
    requires { at + N ≤ length s.old }
    ensures { s.new ≡ sets s.old at bytes.entry }
{
    s[at..at + N].copy_from_slice(&bytes);
}

/// A number goes into two bytes from a place on.
pub fn put_pair(s: &mut [u8], at: usize, n: u16)
    requires { at + 2 ≤ length s.old }
    ensures { s.new ≡ sets s.old at (pair_bytes n) }
{
    put(s, at, n.to_le_bytes());
}

/// A number goes into four bytes.
pub fn put_word(s: &mut [u8], at: usize, n: u32)
    requires { at + 4 ≤ length s.old }
    ensures { s.new ≡ sets s.old at (word_bytes n) }
{
    put(s, at, n.to_le_bytes());
}

/// A number goes into eight bytes.
pub fn put_long(s: &mut [u8], at: usize, n: u64)
    requires { at + 8 ≤ length s.old }
    ensures { s.new ≡ sets s.old at (long_bytes n) }
{
    put(s, at, n.to_le_bytes());
}

/// A finite float goes into four bytes.
#[tactic(auto, using(crate::proofs::Storing::no_nan))]
pub fn put_float(s: &mut [u8], at: usize, x: f32)
    requires { (at + 4 ≤ length s.old) × (finite x ≡ true) }
    ensures { s.new ≡ sets s.old at (float_bytes x) }
{
    put_word(s, at, x.to_bits());
}

/// A point goes into twelve bytes.
#[tactic(auto, using(crate::proofs::Storing::of_a_point))]
pub fn put_point(s: &mut [u8], at: usize, p: Point)
    requires { (at + 12 ≤ length s.old) × (finite_point p ≡ true) }
    ensures { s.new ≡ sets s.old at (point_bytes p) }
{
    put_float(s, at, p.x);
    put_float(s, at + 4, p.y);
    put_float(s, at + 8, p.z);
}

/// The marks of six feet go into six bytes.
pub fn put_marks(s: &mut [u8], at: usize, f: Feet)
    requires { at + 6 ≤ length s.old }
    ensures { s.new ≡ sets s.old at (lifts f) }
{
    put(s, at, f.map(|foot| u8::from(foot.lifted)).as_legs());
}

/// The points of six feet go into 72 bytes.
pub fn put_points(s: &mut [u8], at: usize, f: Feet)
    requires { (at + 72 ≤ length s.old) × (finite_feet f ≡ true) }
    ensures { s.new ≡ sets s.old at (points_bytes f) }
{
    for (i, foot) in f.as_legs().iter().enumerate() {
        put_point(s, at + 12 * i, foot.point);
    }
}

/// Six feet go into 78 bytes.
#[tactic(auto, using(crate::proofs::Storing::more))]
pub fn put_feet(s: &mut [u8], at: usize, f: Feet)
    requires { (at + 78 ≤ length s.old) × (finite_feet f ≡ true) }
    ensures { s.new ≡ sets s.old at (feet_bytes f) }
{
    put_marks(s, at, f);
    put_points(s, at + 6, f);
}
