// Digits read from bytes: lower-case hex, and decimal counts with no leading zero.
ghost use Rattle.std.specs.Prelude.{◌≡◌, true, ◌+◌, ◌*◌, ◌%◌, ◌≤◌, ◌<◌, ◌^◌, length, ltb};
ghost use Rattle.lines.specs.Digits.{value_of, digit_value, number, read_in, hex_of, count_of};

// Whether a byte is a lower-case hex digit.
fn is_hex(b: u8) -> bool
    ensures { result ≡ ltb (value_of b) 16 }
{
    ((b'0' <= b) & (b <= b'9')) | ((b'a' <= b) & (b <= b'f'))
}

/// The value of a lower-case hex digit, 0 to 15; `None` for any other byte.
pub fn digit_of(b: u8) -> Option<u64>
    ensures { result ≡ digit_value b }
{
    if is_hex(b) {
        Some(known_digit(b))
    } else {
        None
    }
}

// The number of all bytes as digits of the base, at most sixteen.
fn read_in(base: u64, s: &[u8]) -> Option<u64>
    requires { (base ≤ 16) × (length s.now ≤ 16) }
    ensures { result ≡ number (read_in base s.now) }
{
    let mut value = 0;
    for b in s {
        let digit = digit_of(*b)?;
        if base <= digit {
            return None;
        }
        value = value * base + digit;
    }
    Some(value)
}

/// Lower-case hex digits: from `least` to `most` of them, never more than sixteen. `None` for any other text.
pub fn hex(s: &[u8], least: usize, most: usize) -> Option<u64>
    ensures { result ≡ number (hex_of least most s.now) }
{
    let n = s.len();
    if (least <= n) & (n <= most) & (n <= 16) {
        read_in(16, s)
    } else {
        None
    }
}

// Whether all bytes are lower-case hex digits.
// Kept: all of them are looked at, with no branch between them; `all` would stop at each, and take twice as long where they are digits.
pub(crate) fn all_hex(s: &[u8]) -> bool
    ensures { result ≡ (read_in 16 s.now).good }
{
    let mut good = true;
    for b in s {
        good = good & is_hex(*b);
    }
    good
}

// The value of a lower-case hex digit without a test: its byte is known to be one. Letters have the bit of 64.
fn known_digit(b: u8) -> u64
    requires { value_of b < 16 }
    ensures { result ≡ value_of b }
{
    (b % 16 + b / 64 * 9) as u64
}

// Two known digits more.
fn pushed_two(v: u64, a: u8, b: u8) -> u64
    requires { (v < 2 ^ 56) × (value_of a < 16) × (value_of b < 16) }
    ensures { result ≡ (v * 16 + value_of a % 16) * 16 + value_of b % 16 }
{
    (v * 16 + known_digit(a)) * 16 + known_digit(b)
}

// The number of eight bytes that are known to be lower-case hex digits, two of them at a time.
pub(crate) fn spelt(s: &[u8]) -> u64
    requires { (length s.now ≡ 8) × ((read_in 16 s.now).good ≡ true) }
    ensures { result ≡ (read_in 16 s.now).value }
{
    let mut v = 0;
    for k in 0..4 {
        v = pushed_two(v, s[2 * k], s[2 * k + 1]);
    }
    v
}

/// A decimal count: one to `limit` digits, never more than nine, and no leading zero. `None` for any other text.
pub fn count(s: &[u8], limit: usize) -> Option<u64>
    ensures { result ≡ number (count_of limit s.now) }
{
    let n = s.len();
    if (1 <= n) & (n <= limit) & (n <= 9) {
        if (n == 1) | (s[0] != b'0') {
            read_in(10, s)
        } else {
            None
        }
    } else {
        None
    }
}
