// Hundred-millionths and floats, by whole numbers: no float is computed with.
ghost use Rattle.std.specs.Prelude.{◌≡◌, ◌*◌, ◌^◌, ◌<◌, ◌≤◌, false, T, from_bits};
ghost use Rattle.std.specs.Float.{binary32};
ghost use Rattle.numbers.specs.Door.{permits};
ghost use Rattle.numbers.specs.Limits.{foot_limit};
ghost use Rattle.units.specs.Patterns.{val};
ghost use Rattle.poses.specs.Decimals.{whole_decimals, read_as, nearest_whole, written_as};

// The parts of a whole, 10^8.
const PARTS: u64 = 100_000_000;

// The leading one of 24 digits, 2^23.
const LEADING: u64 = 0x80_0000;

// The pattern of the f32 nearest to n parts, without a sign. Moved up to 52 binary digits n is divided once; of the quotient's 25
// leading digits the last one rounds, which tells, since no tie can be. The quotient has 25 or 26, both often, so that no branch goes
// by it.
fn nearest_bits(n: u64) -> u32
    requires { n < 10 ^ 9 }
    ensures { (result < 2 ^ 31) × (from_bits binary32 result ≡ read_as false n) }
{
    if n == 0 {
        return 0;
    }
    let z = u64::leading_zeros(n) - 12;
    let q = (n << z) / PARTS;
    let k = 150 - z as u64;
    let more = q / 0x200_0000;
    ((k + more) * LEADING + ((q >> more) + 1) / 2) as u32
}

/// The f32 nearest to n parts, with its sign: -0 where there are none of them.
pub fn read_as(minus: bool, n: u64) -> f32
    requires { n < 10 ^ 9 }
    ensures { result ≡ read_as minus n }
{
    let bits = nearest_bits(n);
    if minus {
        f32::from_bits(bits + 0x8000_0000)
    } else {
        f32::from_bits(bits)
    }
}

// The number of parts nearest to that of a pattern without a sign, of 4 at most; ties to even. Below 2^-28 (pattern 0x3180_0000) it is less
// than half a part.
fn nearest_parts(b: u32) -> u64
    requires { b ≤ 1082130432 }
    ensures { result ≡ nearest_whole (whole_decimals * val b) (2 ^ 149) }
{
    if b < 0x3180_0000 {
        return 0;
    }
    let e = b / 0x80_0000;
    let p = (LEADING + (b % 0x80_0000) as u64) * PARTS;
    let s = 150 - e;
    let q = p >> s;
    (p + (1u64 << (s - 1)) - 1 + q % 2) >> s
}

/// The same of a float that a foot may have.
pub fn written_as(x: f32) -> u64
    requires { T (permits foot_limit x) }
    ensures { result ≡ written_as x }
{
    nearest_parts(f32::to_bits(x) % 0x8000_0000)
}
