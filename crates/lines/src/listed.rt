// The lines of a listing: written into a lent buffer, and read back.
ghost use Rattle.std.specs.Prelude.{◌≡◌, true, [], ◌+◌, ◌≤◌, length, get_or, drop};
ghost use Rattle.numbers.specs.Told.{choose};
ghost use Rattle.lines.specs.Parts.{field_number, tabbeds, all_good, bits_of};
ghost use Rattle.lines.specs.Reading.{named, header_of, moved, move_of, line_of};
ghost use Rattle.numbers.specs.Stored.{Stored};
ghost use Rattle.lines.specs.Lines.{written, ended, lettered, has_room, count_digits};

use crate::{digits, fields, put};

/// A step that moved: its count from 1, and the new point as bit patterns.
#[derive(Clone, Copy, Debug, PartialEq, Eq)]
pub struct Moved {
    pub count: u32,
    pub x: u32,
    pub y: u32,
    pub z: u32,
}

/// A line of a listing: the header with its version, a step, the count of a walk that arrived, a refusal's number.
#[derive(Clone, Copy, Debug, PartialEq, Eq)]
pub enum Line {
    Header(u32),
    Move(Moved),
    Arrived(u32),
    Refused(u32),
}

// Kept: `put_line` alone calls the three below, each where it has seen that there is room; a type for that would be made and taken apart
// in one `match`.

// A step's line.
pub(crate) fn put_move(buf: &mut [u8], at: usize, m: Moved) -> usize
    requires { at + 40 ≤ length buf.old }
    ensures { Stored buf.old at (written (Line.Move m)) result buf.new × (result ≤ at + 40) }
{
    let a = put::letter(buf, at, b'M');
    let b = put::count(buf, a, m.count as u64);
    let x = put::pattern(buf, b, m.x);
    let y = put::pattern(buf, x, m.y);
    let z = put::pattern(buf, y, m.z);
    put::newline(buf, z)
}

// A line of a letter and a number.
pub(crate) fn put_short(buf: &mut [u8], at: usize, letter: u8, n: u32) -> usize
    requires { at + 40 ≤ length buf.old }
    ensures { Stored buf.old at (ended (lettered letter n)) result buf.new × (result ≤ at + 40) }
{
    let a = put::letter(buf, at, letter);
    let b = put::count(buf, a, n as u64);
    put::newline(buf, b)
}

// The header.
pub(crate) fn put_header(buf: &mut [u8], at: usize, version: u32) -> usize
    requires { at + 40 ≤ length buf.old }
    ensures { Stored buf.old at (written (Line.Header version)) result buf.new × (result ≤ at + 40) }
{
    let a = put::name(buf, at);
    let b = put::count(buf, a, version as u64);
    put::newline(buf, b)
}

/// A line with its newline, stored from `at` on; gives the place after it. No line is longer than 40 bytes: where the
/// buffer has not that much room, nothing is stored and the place stays.
pub fn put_line(buf: &mut [u8], at: usize, line: Line) -> usize
    ensures { Stored buf.old at (choose (has_room buf.old at) (written line) []) result buf.new
        × (result ≤ at + 40) }
{
    let n = buf.len();
    if n < 40 {
        return at;
    }
    if n - 40 < at {
        return at;
    }
    match line {
        Line::Header(version) => put_header(buf, at, version),
        Line::Move(m) => put_move(buf, at, m),
        Line::Arrived(count) => put_short(buf, at, b'A', count),
        Line::Refused(number) => put_short(buf, at, b'R', number),
    }
}

/// How many digits a count has at most in a listing of this version: five in version 1, six in version 2, and none in any other, which
/// is no version.
pub fn count_digits(version: u32) -> usize
    ensures { result ≡ count_digits version }
{
    if version == 1 {
        return 5;
    }
    if version == 2 { 6 } else { 0 }
}

// The first byte of a line, 0 where there is none.
fn first(s: &[u8]) -> u8
    ensures { result ≡ get_or s.now 0 0 }
{
    s.first().copied().unwrap_or(0)
}

// Whether a line begins with the header's name and a tab.
fn named(s: &[u8]) -> bool
    requires { 12 ≤ length s.now }
    ensures { result ≡ named s.now }
{
    s.starts_with(b"hopper-walk\t")
}

// The header's version.
fn header_of(s: &[u8]) -> Option<u32>
    ensures { result ≡ field_number (header_of s.now) }
{
    if s.len() < 12 {
        return None;
    }
    let version = digits::count(&s[12..], 9)?;
    if named(s) { Some(version as u32) } else { None }
}

// Whether a tab and eight hex digits stand at a place three times.
fn three_tabbed(s: &[u8], at: usize) -> bool
    requires { at + 27 ≤ length s.now }
    ensures { result ≡ all_good true (tabbeds 3 (drop at s.now)) }
{
    fields::is_tabbed(s, at) & fields::is_tabbed(s, at + 9) & fields::is_tabbed(s, at + 9 + 9)
}

// A step of a count and the three patterns at a place.
fn moved_to(count: u32, s: &[u8], at: usize) -> Moved
    requires { (at + 27 ≤ length s.now) × (all_good true (tabbeds 3 (drop at s.now)) ≡ true) }
    ensures { result ≡ moved count (bits_of (tabbeds 3 (drop at s.now))) }
{
    Moved {
        count,
        x: fields::bits_at(s, at),
        y: fields::bits_at(s, at + 9),
        z: fields::bits_at(s, at + 9 + 9),
    }
}

// The line of a step: its three patterns are the last 27 bytes.
fn move_of(s: &[u8], limit: usize) -> Option<Line>
    ensures { result ≡ move_of limit s.now }
{
    let n = s.len();
    if n < 29 {
        return None;
    }
    let e = n - 27;
    let count = digits::count(&s[2..e], limit)?;
    if (s[0] == b'M') & (s[1] == b'\t') & three_tabbed(s, e) {
        Some(Line::Move(moved_to(count as u32, s, e)))
    } else {
        None
    }
}

/// The line that some bytes are, without their newline. Counts have at most `limit` digits, which is `count_digits` of the listing's
/// version, and never more than nine. `None` where the bytes are no line.
pub fn line_of(s: &[u8], limit: usize) -> Option<Line>
    ensures { result ≡ line_of limit s.now }
{
    match first(s) {
        b'M' => move_of(s, limit),
        b'A' => Some(Line::Arrived(fields::short_of(s, limit)?)),
        b'R' => Some(Line::Refused(fields::short_of(s, limit)?)),
        _ => Some(Line::Header(header_of(s)?)),
    }
}
