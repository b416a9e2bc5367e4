// The printer as a state, fed with parts of its input: a line may be cut anywhere, and is answered once its newline has come.
ghost use Rattle.std.specs.Prelude.{◌≡◌, ◌<◌, true, false, not, ◌&&◌, length, nat_le};
ghost use Rattle.lines.specs.Lines.{has_room};
ghost use Rattle.listing.specs.Block.{is_done};
ghost use Rattle.listing.specs.Stretch.{reached};
ghost use Rattle.listing.specs.Printer.{Fresh, Leaves, Puts, Ends, is_through};

use crate::block::Rest;
use crate::stretch::Stretch;
use crate::{asks, block, stretch};
use lines::carry::Carry;
use lines::{carry, fields};

/// What is kept of the unfinished line, and what is left of the block that is being printed.
#[derive(Clone, Copy)]
pub struct Printer {
    pub carry: Carry,
    pub rest: Rest,
}

/// How far it has come: the printer, the place behind what is read of the part, the place behind what is stored in the buffer.
#[derive(Clone, Copy)]
pub struct Reached {
    pub printer: Printer,
    pub from: usize,
    pub at: usize,
}

/// Nothing is read yet. (The header is `block::header`.)
pub fn fresh() -> Printer
    ensures { Fresh result }
{
    Printer {
        carry: carry::empty(),
        rest: Rest::Done,
    }
}

// A line goes on in a part, from a place on: to its newline, which begins its block, or to the end of the part, which keeps it.
fn line(c: Carry, rest: Rest, part: &[u8], from: usize, at: usize) -> Reached
    requires { (is_done rest ≡ true) × (from < length part.now) }
    ensures { Leaves part.now (record { carry = c; rest = rest }) from result × (result.at ≡ at) × (from < result.from) }
{
    let n = part.len();
    let end = fields::field_end(part, from, b'\n');
    if end < n {
        Reached {
            printer: Printer {
                carry: carry::empty(),
                rest: block::whole(asks::finished(c, &part[from..end])),
            },
            from: end + 1,
            at,
        }
    } else {
        Reached {
            printer: Printer {
                carry: carry::more(c, &part[from..]),
                rest,
            },
            from: n,
            at,
        }
    }
}

// What is left is stored as far as there is room, and if nothing is kept of a line, those that lie whole in the part are read.
fn advanced(q: Reached, part: &[u8], buf: &mut [u8]) -> Reached
    ensures { Puts part.now buf.old q.printer q.from q.at buf.new result
        × ((not (is_done result.printer.rest) && has_room buf.new result.at) ≡ false)
        × (has_room buf.old q.at ≡ false → result ≡ q) }
{
    let carry = q.printer.carry;
    let start = Stretch {
        rest: q.printer.rest,
        from: q.from,
        at: q.at,
    };
    behind(
        carry,
        stretch::gone(buf, part, carry::has_begun(carry), start),
    )
}

// Behind a stretch, over which what is kept of a line has stayed.
fn behind(carry: Carry, s: Stretch) -> Reached
    ensures { result ≡ reached carry s }
{
    Reached {
        printer: Printer {
            carry,
            rest: s.rest,
        },
        from: s.from,
        at: s.at,
    }
}

// The next line of the part, where nothing is left to print, and so on behind it.
fn round(q: Reached, part: &[u8], buf: &mut [u8]) -> Reached
    requires { (is_done q.printer.rest ≡ true) × (q.from < length part.now) }
    ensures { Puts part.now buf.old q.printer q.from q.at buf.new result × (q.from < result.from)
        × ((not (is_done result.printer.rest) && has_room buf.new result.at) ≡ false) }
{
    let p = q.printer;
    advanced(line(p.carry, p.rest, part, q.from, q.at), part, buf)
}

/// Whether a part of n bytes is used up and nothing is left to print.
pub fn is_through(q: Reached, n: usize) -> bool
    ensures { result ≡ (is_done q.printer.rest && nat_le n q.from) }
{
    q.printer.rest.is_done() & (n <= q.from)
}

/// A part is read from a place on, and what its lines print is stored from `at` on, until the part is used up and nothing is left to print,
/// or the buffer has less than a line's room, 40 bytes: then the buffer is to be written out, and the part goes on at `from`.
pub fn put(p: Printer, part: &[u8], from: usize, buf: &mut [u8], at: usize) -> Reached
    ensures { Puts part.now buf.old p from at buf.new result
        × ((not (is_through part.now result) && has_room buf.new result.at) ≡ false)
        × (has_room buf.old at ≡ false → result ≡ record { printer = p; from = from; at = at }) }
{
    let start = Reached {
        printer: p,
        from,
        at,
    };
    let mut q = advanced(start, part, buf);
    // Kept: no index is counted. A round gets on by a line, and ends it where the part is used up or the buffer full.
    while block::goes_on(is_through(q, part.len()), buf.len(), q.at) {
        q = round(q, part, buf);
    }
    q
}

/// The input has ended: the unfinished line, if one has begun, is what is left to print. While something is left already, all stays.
pub fn end(p: Printer) -> Printer
    ensures { Ends p result }
{
    if !p.rest.is_done() {
        return p;
    }
    if !carry::has_begun(p.carry) {
        return p;
    }
    Printer {
        carry: carry::empty(),
        rest: block::whole(asks::asked(p.carry)),
    }
}
