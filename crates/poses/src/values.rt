// Numbers and values, read from a place of a text on.
ghost use Rattle.std.specs.Prelude.{◌≡◌, ◌+◌, ◌^◌, ◌<◌, ◌≤◌, length, drop};
ghost use Rattle.poses.specs.Json.{is_digit};
ghost use Rattle.poses.specs.Gathering.{run_read, amount_read, number_read, null_read, three_read, value_read, point_read};

use crate::{OptionalFoot, decimals, text};
use legs::Point;

/// Digits behind a point: the number with them, in hundred-millionths, and how many there are.
#[derive(Clone, Copy, Debug, PartialEq, Eq)]
pub struct Run {
    pub parts: u64,
    pub taken: usize,
}

/// A number, and the place behind it.
#[derive(Clone, Copy, Debug, PartialEq, Eq)]
pub struct NumberRead {
    pub minus: bool,
    pub parts: u64,
    pub next: usize,
}

/// A value, and the place behind it. A foot that is read stands.
#[derive(Clone, Copy, Debug, PartialEq)]
pub struct ValueRead {
    pub foot: OptionalFoot,
    pub next: usize,
}

// 10^k.
// Kept: `pow` would be no plainer for the reader of a number: nine cases are all that there are, and none multiplies.
fn power(k: usize) -> u64
    requires { k ≤ 8 }
    ensures { result ≡ 10 ^ k }
{
    match k {
        0 => 1,
        1 => 10,
        2 => 100,
        3 => 1_000,
        4 => 10_000,
        5 => 100_000,
        6 => 1_000_000,
        7 => 10_000_000,
        _ => 100_000_000,
    }
}

// 0 to 9.
fn is_digit(b: u8) -> bool
    ensures { result ≡ is_digit b }
{
    (48 <= b) & (b <= 57)
}

// At most eight digits behind a number of one.
fn run_of(s: &[u8], from: usize, first: u64) -> Run
    requires { (first < 10) × (from ≤ length s.now + 1) }
    ensures { (result ≡ run_read first (drop from s.now)) × (result.parts < 10 ^ 9) × (result.taken ≤ 8) }
{
    let mut n = first;
    for k in 0..8 {
        let b = text::byte_at(s, from + k);
        if !is_digit(b) {
            return Run {
                parts: n * power(8 - k),
                taken: k,
            };
        }
        n = n * 10 + (b - 48) as u64;
    }
    Run { parts: n, taken: 8 }
}

// A number that ends before a place.
fn number_to(minus: bool, parts: u64, next: usize) -> NumberRead
    ensures { result ≡ record { minus = minus; parts = parts; next = next } }
{
    NumberRead { minus, parts, next }
}

// A number behind its sign: one digit, and maybe a point with one to eight more.
fn amount(s: &[u8], i: usize, minus: bool) -> NumberRead
    ensures { (result ≡ amount_read minus s.now i) × (result.parts < 10 ^ 9) }
{
    let b = text::byte_at(s, i);
    if !is_digit(b) {
        return number_to(minus, 0, text::nowhere(s));
    }
    let first = (b - 48) as u64;
    if text::byte_at(s, i + 1) != 46 {
        return number_to(minus, first * 100_000_000, i + 1);
    }
    let run = run_of(s, i + 2, first);
    if run.taken == 0 {
        return number_to(minus, 0, text::nowhere(s));
    }
    number_to(minus, run.parts, i + 2 + run.taken)
}

// A number: maybe a minus, then its digits.
fn number(s: &[u8], i: usize) -> NumberRead
    ensures { (result ≡ number_read s.now i) × (result.parts < 10 ^ 9) }
{
    if text::byte_at(s, i) == 45 {
        amount(s, i + 1, true)
    } else {
        amount(s, i, false)
    }
}

// null
fn null_at(s: &[u8], i: usize) -> ValueRead
    ensures { result ≡ null_read s.now i }
{
    let n = text::after(s, i, b'n');
    let u = text::after(s, n, b'u');
    let l = text::after(s, u, b'l');
    ValueRead {
        foot: None,
        next: text::after(s, l, b'l'),
    }
}

// The point of three numbers.
fn point_read(x: NumberRead, y: NumberRead, z: NumberRead) -> Point
    requires { (x.parts < 10 ^ 9) × (y.parts < 10 ^ 9) × (z.parts < 10 ^ 9) }
    ensures { result ≡ point_read x y z }
{
    Point {
        x: decimals::read_as(x.minus, x.parts),
        y: decimals::read_as(y.minus, y.parts),
        z: decimals::read_as(z.minus, z.parts),
    }
}

// A list of three numbers.
fn three_at(s: &[u8], i: usize) -> ValueRead
    ensures { result ≡ three_read s.now i }
{
    let x = number(s, text::token(s, i, b'['));
    let y = number(s, text::token(s, text::past(s, x.next), b','));
    let z = number(s, text::token(s, text::past(s, y.next), b','));
    let next = text::after(s, text::past(s, z.next), b']');
    let point = point_read(x, y, z);
    ValueRead {
        foot: Some(legs::unchecked::foot_at(point, false)),
        next,
    }
}

/// null, or a list of three numbers.
pub fn value_at(s: &[u8], i: usize) -> ValueRead
    ensures { result ≡ value_read s.now i }
{
    if text::byte_at(s, i) == b'n' {
        null_at(s, i)
    } else {
        three_at(s, i)
    }
}
