// The lines that a comparison of two listings prints, written into a lent buffer.
ghost use Rattle.std.specs.Prelude.{◌≡◌, [], ◌+◌, ◌≤◌, leb, length};
ghost use Rattle.numbers.specs.Told.{choose};
ghost use Rattle.lines.specs.Lines.{lettered, ended};
ghost use Rattle.numbers.specs.Stored.{Stored};
ghost use Rattle.lines.specs.Compared.{coordinate, coordinates, differing, refusing, told_text, has_told_room};

use crate::listed::Moved;
use crate::put;

/// Two steps at a position: the bench's and the office's.
#[derive(Clone, Copy, Debug, PartialEq, Eq)]
pub struct Both {
    pub position: u64,
    pub bench: Moved,
    pub office: Moved,
}

/// What a position tells: nothing, where the lines are the same; a difference, of two steps or of any other lines; that a line is bad; and
/// after the last one, how many differed.
#[derive(Clone, Copy, Debug, PartialEq, Eq)]
pub enum Told {
    Same,
    Differs(u64),
    Moves(Both),
    Refused(u64),
    Total(u64),
}

// A letter and a number.
fn put_number(buf: &mut [u8], at: usize, letter: u8, n: u64) -> usize
    requires { at + 22 ≤ length buf.old }
    ensures { Stored buf.old at (lettered letter n) result buf.new }
{
    let a = put::letter(buf, at, letter);
    put::count(buf, a, n)
}

// A coordinate where it differs: its letter, the bench's bits, the office's.
fn put_coordinate(buf: &mut [u8], at: usize, letter: u8, bench: u32, office: u32) -> usize
    requires { at + 20 ≤ length buf.old }
    ensures { Stored buf.old at (coordinate letter bench office) result buf.new }
{
    if bench == office {
        return at;
    }
    let a = put::mark(buf, at, letter);
    let b = put::pattern(buf, a, bench);
    put::pattern(buf, b, office)
}

// The coordinates of two steps that differ.
fn put_coordinates(buf: &mut [u8], at: usize, bench: Moved, office: Moved) -> usize
    requires { at + 60 ≤ length buf.old }
    ensures { Stored buf.old at (coordinates bench office) result buf.new }
{
    let x = put_coordinate(buf, at, b'x', bench.x, office.x);
    let y = put_coordinate(buf, x, b'y', bench.y, office.y);
    put_coordinate(buf, y, b'z', bench.z, office.z)
}

// The line of two steps that differ.
fn put_moves(buf: &mut [u8], at: usize, both: Both) -> usize
    requires { at + 83 ≤ length buf.old }
    ensures { Stored buf.old at (differing both) result buf.new }
{
    let bench = both.bench;
    let office = both.office;
    let a = put_number(buf, at, b'D', both.position);
    let b = put_coordinates(buf, a, bench, office);
    put::newline(buf, b)
}

// A line of a letter and a number.
fn put_short(buf: &mut [u8], at: usize, letter: u8, n: u64) -> usize
    requires { at + 23 ≤ length buf.old }
    ensures { Stored buf.old at (ended (lettered letter n)) result buf.new }
{
    let a = put_number(buf, at, letter, n);
    put::newline(buf, a)
}

// The line of a refusal: its number is 7.
fn put_refusal(buf: &mut [u8], at: usize, position: u64) -> usize
    requires { at + 83 ≤ length buf.old }
    ensures { Stored buf.old at (refusing position) result buf.new }
{
    let a = put::letter(buf, at, b'R');
    put_short(buf, a, b'7', position)
}

/// Whether the longest line, of 83 bytes, has room from `at` on in a buffer of n bytes.
pub fn has_room(n: usize, at: usize) -> bool
    ensures { result ≡ leb (at + 83) n }
{
    if n < 83 {
        return false;
    }
    if n - 83 < at {
        return false;
    }
    true
}

/// What a position tells, stored from `at` on; gives the place after it. No line is longer than 83 bytes: where the buffer has not that
/// much room, nothing is stored and the place stays.
pub fn put_told(buf: &mut [u8], at: usize, told: Told) -> usize
    ensures { Stored buf.old at (choose (has_told_room buf.old at) (told_text told) []) result buf.new }
{
    if !has_room(buf.len(), at) {
        return at;
    }
    match told {
        Told::Same => at,
        Told::Differs(position) => put_short(buf, at, b'D', position),
        Told::Moves(both) => put_moves(buf, at, both),
        Told::Refused(position) => put_refusal(buf, at, position),
        Told::Total(total) => put_short(buf, at, b'T', total),
    }
}
