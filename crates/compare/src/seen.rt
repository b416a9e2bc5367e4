// What a file has at a position: a good line, a bad one, or none. A file's version is that of its header, and 0 while line 1 is not read.
ghost use Rattle.std.specs.Prelude.{◌≡◌};
ghost use Rattle.numbers.specs.Told.{choose};
ghost use Rattle.lines.specs.Carry.{held, keep};
ghost use Rattle.compare.specs.Seen.{good_first, good_later, may_stand, read, read_kept, read_last, version_of, version_after};

use lines::carry::Carry;
use lines::listed::Line;
use lines::{carry, listed};

/// What a file has at a position.
// Kept: three kinds with a name each; an option of an option says less of which nothing is meant.
#[derive(Clone, Copy, Debug, PartialEq, Eq)]
pub enum Seen {
    /// A line that may stand there.
    Good(Line),
    /// Bytes that are no such line.
    Bad,
    /// It has ended.
    Nothing,
}

// The version that a line says: that of a header, 0 of any other.
#[tactic(auto, unfolding(crate::specs::Seen::version_of))]
fn version_of(line: Line) -> u32
    ensures { result ≡ version_of line }
{
    match line {
        Line::Header(version) => version,
        Line::Move(_) | Line::Arrived(_) | Line::Refused(_) => 0,
    }
}

// Whether a line may be line 1: the header, of version 1 or 2.
fn may_be_first(line: Line) -> bool
    ensures { result ≡ good_first line }
{
    let version = version_of(line);
    (version == 1) | (version == 2)
}

// Whether a line may stand behind line 1: a step counted from 1, an arrival, a refusal 1, 2 or 7.
fn may_be_later(line: Line) -> bool
    ensures { result ≡ good_later line }
{
    match line {
        Line::Header(_) => false,
        Line::Move(m) => m.count != 0,
        Line::Arrived(_) => true,
        Line::Refused(number) => (number == 1) | (number == 2) | (number == 7),
    }
}

// Whether a line may stand where the file's next one is read.
fn may_stand(version: u32, line: Line) -> bool
    ensures { result ≡ may_stand version line }
{
    if version == 0 {
        may_be_first(line)
    } else {
        may_be_later(line)
    }
}

// A line that is good where it may stand.
fn judged(good: bool, line: Line) -> Seen
    ensures { result ≡ choose good (Seen.Good line) Seen.Bad }
{
    if good { Seen::Good(line) } else { Seen::Bad }
}

/// What the bytes of a line are, without their newline, in a file of this version.
#[tactic(auto, unfolding(crate::specs::Seen::read))]
pub fn read(version: u32, s: &[u8]) -> Seen
    ensures { result ≡ read version s.now }
{
    match listed::line_of(s, listed::count_digits(version)) {
        Some(line) => judged(may_stand(version, line), line),
        None => Seen::Bad,
    }
}

// The same of a line of which at most 128 bytes are kept.
#[tactic(auto, unfolding(crate::specs::Seen::read_kept))]
fn read_kept(version: u32, c: Carry) -> Seen
    ensures { result ≡ read_kept version (held c) }
{
    match c {
        Carry::Whole(front) => read(version, front.as_slice()),
        Carry::Overlong => Seen::Bad,
    }
}

/// What a line is that was cut, with the bytes that finish it.
pub fn read_finished(version: u32, c: Carry, s: &[u8]) -> Seen
    ensures { result ≡ read_kept version (keep (held c) s.now) }
{
    if carry::has_begun(c) {
        read_kept(version, carry::more(c, s))
    } else {
        read(version, s)
    }
}

/// What a file has where its bytes end, after what is kept of the line that has begun. Where the end is a read that failed, the line that
/// it interrupts is bad. A file without line 1 is bad there.
pub fn read_last(version: u32, c: Carry, failed: bool) -> Seen
    ensures { result ≡ read_last failed version (held c) }
{
    if failed {
        return Seen::Bad;
    }
    if carry::has_begun(c) {
        return read_kept(version, c);
    }
    if version == 0 {
        Seen::Bad
    } else {
        Seen::Nothing
    }
}

/// A file's version after a position: line 1 says it.
#[tactic(auto, unfolding(crate::specs::Seen::version_after))]
pub fn version_after(version: u32, seen: Seen) -> u32
    ensures { result ≡ version_after version seen }
{
    if version != 0 {
        return version;
    }
    match seen {
        Seen::Good(line) => version_of(line),
        Seen::Bad | Seen::Nothing => 0,
    }
}
