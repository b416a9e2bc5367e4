// A line that is cut between two reads. At most 128 bytes of it are kept: no record and no line of a listing is longer, so that a longer
// line is only known to be too long.
ghost use Rattle.std.specs.Prelude.{◌≡◌, min};
ghost use Rattle.lines.specs.Carry.{held, keep, fresh, has_begun};

pub use crate::front::Front;

/// What is kept of an unfinished line.
#[derive(Clone, Copy)]
pub enum Carry {
    /// All its bytes.
    Whole(Front),
    /// It has more than 128 bytes, and none is kept.
    Overlong,
}

/// Nothing yet.
pub fn empty() -> Carry
    ensures { held result ≡ fresh }
{
    Carry::Whole(Front::empty())
}

/// How many bytes are kept.
pub fn kept(len: usize) -> usize
    ensures { result ≡ min len 128 }
{
    len.min(128)
}

/// The unfinished line and some bytes more.
pub fn more(c: Carry, s: &[u8]) -> Carry
    ensures { held result ≡ keep (held c) s.now }
{
    match c {
        Carry::Overlong => Carry::Overlong,
        Carry::Whole(front) => match front.with(s) {
            Some(longer) => Carry::Whole(longer),
            None => Carry::Overlong,
        },
    }
}

/// Whether a line has begun.
pub fn has_begun(c: Carry) -> bool
    ensures { result ≡ has_begun (held c) }
{
    match c {
        Carry::Whole(front) => !front.is_empty(),
        Carry::Overlong => true,
    }
}
