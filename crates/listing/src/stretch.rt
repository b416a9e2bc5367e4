// What is left to print is stored, and the lines that lie whole in a part are read, none of whose bytes is copied.
ghost use Rattle.std.specs.Prelude.{◌≡◌, false, not, ◌&&◌};
ghost use Rattle.lines.specs.Lines.{has_room};
ghost use Rattle.listing.specs.Block.{is_done};
ghost use Rattle.listing.specs.Stretch.{Goes, ReadsOn, Stores, Unmoved};

use crate::block;
use crate::block::Rest;
use lines::{fields, record};

// How far it has come: what is left to print, the places behind what is read of the part and behind what is stored in the buffer.
#[derive(Clone, Copy, Debug, PartialEq)]
pub(crate) struct Stretch {
    pub rest: Rest,
    pub from: usize,
    pub at: usize,
}

// What is left is stored as far as there is room.
fn filled(buf: &mut [u8], g: Stretch) -> Stretch
    ensures { Stores buf.old g buf.new result × ((not (is_done result.rest) && has_room buf.new result.at) ≡ false)
        × Unmoved buf.old g result }
{
    let f = block::fill(buf, g.at, g.rest);
    Stretch {
        rest: f.rest,
        from: g.from,
        at: f.at,
    }
}

// The next line that lies whole in the part, where nothing is left to print and a buffer of n bytes has room.
fn line_read(part: &[u8], n: usize, g: Stretch) -> Option<Stretch>
    ensures { ReadsOn part.now n g result }
{
    if !block::goes_on(!g.rest.is_done(), n, g.at) {
        return None;
    }
    let end = fields::field_end(part, g.from, b'\n');
    if part.len() <= end {
        return None;
    }
    Some(Stretch {
        rest: block::whole(record::record_of(&part[g.from..end])),
        from: end + 1,
        at: g.at,
    })
}

// As far as it goes. Where a line has begun, of which something is kept, no line lies whole in the part.
pub(crate) fn gone(buf: &mut [u8], part: &[u8], begun: bool, g: Stretch) -> Stretch
    ensures { Goes part.now begun buf.old g buf.new result
        × ((not (is_done result.rest) && has_room buf.new result.at) ≡ false) × Unmoved buf.old g result }
{
    let mut g = g;
    // Kept: filling stands at one place of one loop, so that what is left of a block stays in registers. With a `while let` it would stand
    // at two, and lines of two bytes would take seven tenths more time.
    loop {
        g = filled(buf, g);
        if begun {
            return g;
        }
        match line_read(part, buf.len(), g) {
            Some(next) => g = next,
            None => return g,
        }
    }
}
