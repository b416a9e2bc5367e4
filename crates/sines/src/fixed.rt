// Sine and cosine in whole numbers: the argument in units of 2^-35 is whole eighths, whose sine and
// cosine stand in the tables, and a rest, whose sine and cosine are polynomials.
ghost use Rattle.std.specs.Prelude.{◌≡◌, ◌+◌, ◌-◌, ◌*◌, ◌/◌, ◌<◌, ◌≤◌};
ghost use Rattle.sines.specs.How.{sixteen, eighth, table_one, rest_one, line_factor, result_one, surplus, tiny_bits, sixteen_bits};
ghost use Rattle.sines.specs.How.{sine_entry, cosine_entry, fixed, eighths, square, even, odd, sine_sum, cosine_sum};
ghost use Rattle.sines.specs.How.{fixed_sine, fixed_cosine, counted, entry_at};

use crate::table;

// An eighth, as a count of the argument's unit, 2^-35.
const EIGHTH: u64 = 0x1_0000_0000;

// 1, as a count of the table's unit, 2^-30.
const TABLE_ONE: i64 = 0x4000_0000;

// 1, as a count of the rest's unit, 2^-32.
const REST_ONE: u64 = 0x1_0000_0000;

// The result's unit, 2^-24, as a count of the products', 2^-62.
const RESULT_UNIT: i64 = 0x40_0000_0000;

// Half of it, so that the shift, which rounds down, rounds to the nearest.
const HALF_RESULT_UNIT: i64 = RESULT_UNIT / 2;

// What is added so that a result is not negative, 5/4, as a count of its unit; and what is taken off again.
const SURPLUS: i64 = 0x140_0000;

const SURPLUS_AGAIN: i32 = 0x140_0000;

// The factors of z's powers in 1 - z^2/128 + z^4/98304 and z/8 - z^3/3072 + z^5/3932160, where z is
// 8 times the rest. The 20 stand for the terms that are left out.
const SQUARE_FACTOR: u64 = REST_ONE / 128;

const FOURTH_FACTOR: u64 = REST_ONE / 98304 - 20;

const LINE_FACTOR: u64 = REST_ONE / 8;

const CUBE_FACTOR: u64 = REST_ONE / 3072;

const FIFTH_FACTOR: u64 = REST_ONE / 3932160;

/// The magnitude of an f32 from 2^-12 to 16 in units of 2^-35, from its bits without the sign.
pub fn fixed_of(m: u32) -> u64
    requires { (tiny_bits ≤ m) × (m ≤ sixteen_bits) }
    ensures { (result ≡ fixed m) × (result ≤ sixteen) }
{
    let k = (m / 0x80_0000 - 115) as u64;
    let t = (0x80_0000 + m % 0x80_0000) as u64;
    t << k
}

// The square of a rest, in units of 2^-38.
fn square_of(r: u64) -> u64
    requires { r < eighth }
    ensures { (result ≡ square r) × (result < rest_one) }
{
    r * r / REST_ONE
}

// The cosine of a rest in units of 2^-32, from its square.
fn even_part(q: u64) -> u64
    requires { q < rest_one }
    ensures { (result ≡ even q) × (result ≤ rest_one) }
{
    let t = SQUARE_FACTOR - q * FOURTH_FACTOR / REST_ONE;
    REST_ONE - q * t / REST_ONE
}

// The sine of a rest in units of 2^-32, from it and its square.
fn odd_part(r: u64, q: u64) -> u64
    requires { (r < eighth) × (q < rest_one) }
    ensures { (result ≡ odd r q) × (result ≤ line_factor) }
{
    let t = CUBE_FACTOR - q * FIFTH_FACTOR / REST_ONE;
    let u = LINE_FACTOR - q * t / REST_ONE;
    r * u / REST_ONE
}

// sin(p + r) = sin p cos r + cos p sin r in units of 2^-24, plus the surplus; the first two in units
// of 2^-30 and plus 1, the last two in units of 2^-32. The shift divides by the result's unit.
fn sine_sum(s: u32, c: u32, a: u64, b: u64) -> u64
    requires { (s ≤ 2 * table_one) × (c ≤ 2 * table_one) × (a ≤ rest_one) × (b ≤ line_factor) }
    ensures { result ≡ sine_sum s c a b }
{
    let u = s as i64 - TABLE_ONE;
    let v = c as i64 - TABLE_ONE;
    (((u * a as i64 + v * b as i64 + HALF_RESULT_UNIT) >> 38) + SURPLUS) as u64
}

// cos(p + r) = cos p cos r - sin p sin r, likewise.
fn cosine_sum(s: u32, c: u32, a: u64, b: u64) -> u64
    requires { (s ≤ 2 * table_one) × (c ≤ 2 * table_one) × (a ≤ rest_one) × (b ≤ line_factor) }
    ensures { result ≡ cosine_sum s c a b }
{
    let u = s as i64 - TABLE_ONE;
    let v = c as i64 - TABLE_ONE;
    (((v * a as i64 - u * b as i64 + HALF_RESULT_UNIT) >> 38) + SURPLUS) as u64
}

/// A sine and a cosine in units of 2^-24, plus the surplus.
#[derive(Clone, Copy)]
pub struct Pair {
    pub sine: u64,
    pub cosine: u64,
}

/// What the table has at the whole eighths of x in units of 2^-35, up to 16.
pub fn entry_of(x: u64) -> table::Eighths
    requires { x ≤ sixteen }
    ensures { result ≡ entry_at x }
{
    table::entry((x / EIGHTH) as u32)
}

/// Both of x in units of 2^-35, up to 16, by what the table has at its whole eighths.
pub fn both_at(x: u64, s: u32, c: u32) -> Pair
    requires { (x ≤ sixteen) × (s ≡ sine_entry (eighths x)) × (c ≡ cosine_entry (eighths x)) }
    ensures { (result.sine ≡ fixed_sine x) × (result.cosine ≡ fixed_cosine x) }
{
    let r = x % EIGHTH;
    let q = square_of(r);
    let a = even_part(q);
    let b = odd_part(r, q);
    Pair {
        sine: sine_sum(s, c, a, b),
        cosine: cosine_sum(s, c, a, b),
    }
}

/// So many of the last place, from a number with the surplus.
pub fn counted(last_place: f32, w: u64) -> f32
    requires { (surplus - result_one ≤ w) × (w ≤ surplus + result_one) }
    ensures { result ≡ counted last_place w }
{
    let y = w as i32 - SURPLUS_AGAIN;
    y as f32 * last_place
}
