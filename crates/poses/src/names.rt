// Names: the six, and any name of a text by its characters.
ghost use Rattle.std.specs.Prelude.{◌≡◌, ◌+◌, ◌<◌, ◌≤◌, length, drop};
ghost use Rattle.poses.specs.Json.{is_hex, is_escape};
ghost use Rattle.numbers.specs.Told.{choose};
ghost use Rattle.poses.specs.How.{byte, between, is_tail, many_where, escaped, wide, char_long, name_end};
ghost use Rattle.legs.specs.LegNumbers.{leg_number};
ghost use Rattle.poses.specs.Names.{name_at, same, leg_named};
ghost use Rattle.poses.specs.Gathering.{the_leg, likely};

use crate::text;
use legs::Leg;

/// The name of a leg.
pub fn name_of(leg: Leg) -> &'static [u8]
    ensures { result.now ≡ name_at (leg_number leg) }
{
    match leg {
        Leg::LeftFront => b"left_front",
        Leg::RightFront => b"right_front",
        Leg::LeftMiddle => b"left_middle",
        Leg::RightMiddle => b"right_middle",
        Leg::LeftRear => b"left_rear",
        Leg::RightRear => b"right_rear",
    }
}

// The one leg whose name may have so many bytes and begin with the same one.
fn likely(name: &[u8]) -> Option<Leg>
    ensures { result ≡ the_leg (likely (length name.now) (byte name.now 0)) }
{
    if text::byte_at(name, 0) == b'l' {
        return match name.len() {
            10 => Some(Leg::LeftFront),
            11 => Some(Leg::LeftMiddle),
            9 => Some(Leg::LeftRear),
            _ => None,
        };
    }
    match name.len() {
        11 => Some(Leg::RightFront),
        12 => Some(Leg::RightMiddle),
        10 => Some(Leg::RightRear),
        _ => None,
    }
}

// Whether a leg has a name.
fn is_named(name: &[u8], leg: Leg) -> bool
    ensures { result ≡ same name.now (name_at (leg_number leg)) }
{
    name == name_of(leg)
}

/// The leg that has a name. One name is compared, and not six.
pub fn leg_named(name: &[u8]) -> Option<Leg>
    ensures { result ≡ the_leg (leg_named name.now) }
{
    match likely(name) {
        Some(leg) => { if is_named(name, leg) { Some(leg) } else { None } }
        None => None,
    }
}

// A byte behind the first of a character.
fn is_tail(b: u8) -> bool
    ensures { result ≡ is_tail b }
{
    (128 <= b) & (b <= 191)
}

// Whether a byte lies between two, both permitted.
fn is_between(low: u8, high: u8, b: u8) -> bool
    ensures { result ≡ between low high b }
{
    (low <= b) & (b <= high)
}

// A hex digit of either case.
fn is_hex(b: u8) -> bool
    ensures { result ≡ is_hex b }
{
    is_between(48, 57, b) | is_between(65, 70, b) | is_between(97, 102, b)
}

// What may stand behind a backslash, but for u.
fn is_escape(b: u8) -> bool
    ensures { result ≡ is_escape b }
{
    (b == b'"')
        | (b == b'\\')
        | (b == b'/')
        | (b == b'b')
        | (b == b'f')
        | (b == b'n')
        | (b == b'r')
        | (b == b't')
}

// n where the test holds, else 0.
fn many_where(t: bool, n: usize) -> usize
    ensures { result ≡ many_where t n }
{
    if t { n } else { 0 }
}

// The first where the test holds, else the second.
fn chosen(t: bool, x: u8, y: u8) -> u8
    ensures { result ≡ choose t x y }
{
    if t { x } else { y }
}

// How many bytes an escape has, by those behind its backslash; 0 where it is none.
fn escaped(b: u8, c: u8, d: u8, e: u8, f: u8) -> usize
    ensures { result ≡ escaped b c d e f }
{
    if b == b'u' {
        many_where(is_hex(c) & is_hex(d) & is_hex(e) & is_hex(f), 6)
    } else {
        many_where(is_escape(b), 2)
    }
}

// How many bytes a character past ASCII has, by its first ones; 0 where it is none (RFC 3629).
fn wide(a: u8, b: u8, c: u8, d: u8) -> usize
    ensures { result ≡ wide a b c d }
{
    if is_between(194, 223, a) {
        return many_where(is_tail(b), 2);
    }
    if is_between(224, 239, a) {
        let low = chosen(a == 224, 160, 128);
        let high = chosen(a == 237, 159, 191);
        return many_where(is_between(low, high, b) & is_tail(c), 3);
    }
    if is_between(240, 244, a) {
        let low = chosen(a == 240, 144, 128);
        let high = chosen(a == 244, 143, 191);
        return many_where(is_between(low, high, b) & is_tail(c) & is_tail(d), 4);
    }
    0
}

// How many bytes the character at a place has; 0 where there is none that a name may have.
fn char_long(s: &[u8], i: usize) -> usize
    requires { i < length s.now }
    ensures { (result ≡ char_long (drop i s.now)) × (result ≤ 6) }
{
    let a = s[i];
    if a == b'\\' {
        let b = text::byte_at(s, i + 1);
        let c = text::byte_at(s, i + 2);
        let d = text::byte_at(s, i + 3);
        let e = text::byte_at(s, i + 4);
        let f = text::byte_at(s, i + 5);
        return escaped(b, c, d, e, f);
    }
    if a < 128 {
        return many_where(32 <= a, 1);
    }
    let b = text::byte_at(s, i + 1);
    let c = text::byte_at(s, i + 2);
    let d = text::byte_at(s, i + 3);
    wide(a, b, c, d)
}

/// The place behind the quote that closes the name whose first byte stands at a place.
pub fn name_end(s: &[u8], from: usize) -> usize
    ensures { (result ≡ name_end s.now from) × (result ≤ length s.now + 1) }
{
    let mut i = from;
    // Kept: a `for` is no plainer here: each step goes over a whole character, of one to six bytes.
    while i < s.len() {
        if s[i] == b'"' {
            return i + 1;
        }
        let k = char_long(s, i);
        if k == 0 {
            return text::nowhere(s);
        }
        i += k;
    }
    text::nowhere(s)
}
