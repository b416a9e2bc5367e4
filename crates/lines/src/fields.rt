// Fields parted by a separator byte: a tab for the walk printer, a blank for operation lines.
ghost use Rattle.std.specs.Prelude.{◌≡◌, true, ◌+◌, ◌≤◌, length, drop};
ghost use Rattle.lines.specs.Fields.{field_end};
ghost use Rattle.lines.specs.Parts.{tabbed, field_number, short_of};

use crate::digits;

/// The bit patterns of three coordinates.
#[derive(Clone, Copy, Debug, PartialEq, Eq)]
pub struct Three {
    pub x: u32,
    pub y: u32,
    pub z: u32,
}

// Whether eight bytes follow of which none is the separator.
// Kept: eight tests without a branch between them; `all` would stop at each of them, and is no plainer beside the eight that are passed.
fn eight_clear(s: &[u8], at: usize, separator: u8) -> bool
    ensures { result ≡ true → (at + 8 ≤ length s.now)
        × (field_end separator s.now (at + 8) ≡ field_end separator s.now at) }
{
    let n = s.len();
    if n < 8 {
        return false;
    }
    if n - 8 < at {
        return false;
    }
    (s[at] != separator)
        & (s[at + 1] != separator)
        & (s[at + 2] != separator)
        & (s[at + 3] != separator)
        & (s[at + 4] != separator)
        & (s[at + 5] != separator)
        & (s[at + 6] != separator)
        & (s[at + 7] != separator)
}

/// The place of the first separator from `from` on, or the end. Eight bytes are passed at a time.
pub fn field_end(s: &[u8], from: usize, separator: u8) -> usize
    ensures { result ≡ field_end separator s.now from }
{
    let n = s.len();
    let mut i = from;
    // Kept: a step of eight bytes, as long as none of them is the separator. A `for` has no such end.
    while eight_clear(s, i, separator) {
        i += 8;
    }
    for k in i..n {
        if s[k] == separator {
            return k;
        }
    }
    i.max(n)
}

// Whether a tab stands at a place and eight hex digits after it.
pub(crate) fn is_tabbed(s: &[u8], at: usize) -> bool
    requires { at + 9 ≤ length s.now }
    ensures { result ≡ (tabbed (drop at s.now)).good }
{
    let a = at + 1;
    let e = at + 9;
    (s[at] == 9) & digits::all_hex(&s[a..e])
}

// The number of the eight hex digits after a tab, where they are known to be that.
pub(crate) fn bits_at(s: &[u8], at: usize) -> u32
    requires { (at + 9 ≤ length s.now) × ((tabbed (drop at s.now)).good ≡ true) }
    ensures { result ≡ (tabbed (drop at s.now)).bits }
{
    let a = at + 1;
    let e = at + 9;
    digits::spelt(&s[a..e]) as u32
}

// The count of a line of a letter, a tab and a count, apart from which letter it is.
pub(crate) fn short_of(s: &[u8], limit: usize) -> Option<u32>
    ensures { result ≡ field_number (short_of limit s.now) }
{
    if s.len() < 2 {
        return None;
    }
    let count = digits::count(&s[2..], limit)?;
    if s[1] == b'\t' {
        Some(count as u32)
    } else {
        None
    }
}
