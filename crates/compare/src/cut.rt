// A line that is cut between two chunks of its file, put together from as many as it takes.
ghost use Rattle.compare.specs.Parts.{GoesOn};

use crate::seen;
use crate::seen::Seen;
use lines::carry::Carry;
use lines::{carry, fields};

/// How far a line has come in a chunk.
#[derive(Clone, Copy)]
pub enum Cut {
    /// It is whole: what it is, and where its chunk goes on.
    Whole { seen: Seen, from: usize },
    /// Its chunk has ended: what is kept of it.
    Begun(Carry),
}

/// A line goes on in a chunk, from a place on: to its newline, or to the end of the chunk.
pub fn gone_on(version: u32, c: Carry, chunk: &[u8], from: usize) -> Cut
    ensures { GoesOn version c chunk.now from result }
{
    let n = chunk.len();
    let start = from.min(n);
    let end = fields::field_end(chunk, start, b'\n');
    if end < n {
        Cut::Whole {
            seen: seen::read_finished(version, c, &chunk[start..end]),
            from: end + 1,
        }
    } else {
        Cut::Begun(carry::more(c, &chunk[start..]))
    }
}
