// What is printed for one line: its block, a part at a time, as much as a lent buffer has room for.
ghost use Rattle.std.specs.Prelude.{◌≡◌, ◌+◌, ◌≤◌, true, false, not, ◌&&◌, [], nat_le, MatchOption};
ghost use Rattle.numbers.specs.Told.{choose};
ghost use Rattle.numbers.specs.Stored.{Stored};
ghost use Rattle.lines.specs.Lines.{written, has_room};
ghost use Rattle.lines.specs.declared.listed.Line.TheVariants.{Header};
ghost use Rattle.listing.specs.Listing.{point_at, step, WalkPrints, Prints, listing_version};
ghost use Rattle.listing.specs.Block.{end_line, text_of, moves_on, is_done, Part, IsNext};

use legs::Point;
use lines::listed::{Line, Moved};
use lines::record::{Place, Walk};
use lines::{listed, record};
use numbers::Refusal;

/// A walk on its way: after `made` steps of at most `max_move` metres it stands at `last`. Once it is at `target`, `A` and the count
/// follow, or where `refused` is not 0, `R` and that number.
// Kept: a number, and no refusal or none. A host keeps a printer as a value and may hand in any, and each says what is printed for it.
#[derive(Clone, Copy, Debug, PartialEq)]
pub struct Way {
    pub max_move: f32,
    pub last: Point,
    pub target: Point,
    pub made: u32,
    pub refused: u32,
}

/// What is left of a block.
#[derive(Clone, Copy, Debug, PartialEq)]
pub enum Rest {
    /// The steps of a walk that are still to be made, then its last line.
    Walking(Way),
    /// `R` and the refusal's number.
    Refusing(Refusal),
    /// Nothing.
    Done,
}

/// The next line of a block, and what is left after it.
#[derive(Clone, Copy, Debug, PartialEq)]
pub struct Next {
    pub line: Line,
    pub rest: Rest,
}

/// The place after what was stored, and what is left.
#[derive(Clone, Copy, Debug, PartialEq)]
pub struct Filled {
    pub at: usize,
    pub rest: Rest,
}

fn point_of(p: Place) -> Point
    ensures { result ≡ point_at p }
{
    Point {
        x: p.x,
        y: p.y,
        z: p.z,
    }
}

// The block of a walk. How many steps it has shows as it is gone.
fn walk(w: Walk) -> Rest
    ensures { WalkPrints w.max_move (point_at w.start) (point_at w.target) (text_of result) }
{
    let start = point_of(w.start);
    let target = point_of(w.target);
    match walks::admit_walk(w.max_move, start, target) {
        Ok(()) => Rest::Walking(Way {
            max_move: w.max_move,
            last: start,
            target,
            made: 0,
            refused: 0,
        }),
        Err(refusal) => Rest::Refusing(refusal),
    }
}

/// The whole block of what a line asks for. A line that is no record has refusal 7.
pub fn whole(asked: Option<Walk>) -> Rest
    ensures { Prints asked (text_of result) }
{
    match asked {
        Some(w) => walk(w),
        None => Rest::Refusing(Refusal::NoRecord),
    }
}

// Whether another step follows. No walk that is not refused has more than 147,457.
fn moves_on(last: Point, target: Point, made: u32) -> bool
    ensures { result ≡ moves_on last target made }
{
    if moves::unchecked::is_same(last, target) {
        return false;
    }
    made < 147457
}

// The line of a step: its count, and the point that it leads to.
fn step_line(k: u32, p: Point) -> Line
    ensures { result ≡ step k p }
{
    Line::Move(Moved {
        count: k,
        x: record::bits_of(p.x),
        y: record::bits_of(p.y),
        z: record::bits_of(p.z),
    })
}

// The last line of a walk.
fn end_line(count: u32, refused: u32) -> Line
    ensures { result ≡ end_line count refused }
{
    if refused == 0 {
        Line::Arrived(count)
    } else {
        Line::Refused(refused)
    }
}

impl Way {
    // The next line: of a step more, or of the walk's end.
    fn next(self) -> Next
        ensures { IsNext (Rest.Walking self) result }
    {
        if moves_on(self.last, self.target, self.made) {
            let last = moves::unchecked::move_towards(
                self.last,
                self.target,
                self.max_move,
            ).place();
            let made = self.made + 1;
            Next {
                line: step_line(made, last),
                rest: Rest::Walking(Way { last, made, ..self }),
            }
        } else {
            Next {
                line: end_line(self.made, self.refused),
                rest: Rest::Done,
            }
        }
    }
}

impl Rest {
    /// Whether nothing is left.
    pub fn is_done(self) -> bool
        ensures { result ≡ is_done self }
    {
        matches!(self, Rest::Done)
    }

    // The next line, `None` where nothing is left.
    fn next(self) -> Option<Next>
        ensures { MatchOption result (is_done self ≡ true) (λ n. IsNext self n) }
    {
        match self {
            Rest::Walking(way) => Some(way.next()),
            Rest::Refusing(refusal) => Some(Next {
                line: Line::Refused(refusal.number()),
                rest: Rest::Done,
            }),
            Rest::Done => None,
        }
    }
}

/// The header, stored from `at` on where there is room; gives the place after it.
pub fn header(buf: &mut [u8], at: usize) -> usize
    ensures { Stored buf.old at (choose (has_room buf.old at) (written (Header listing_version)) [])
        result buf.new × (result ≤ at + 40) }
{
    listed::put_line(buf, at, Line::Header(2))
}

/// Lines of the block stored from `at` on, until it is done or the buffer has less than a line's room, 40 bytes.
pub fn fill(buf: &mut [u8], at: usize, r: Rest) -> Filled
    ensures { Part buf.old at (text_of r) result.at (text_of result.rest) buf.new
        × ((not (is_done result.rest) && has_room buf.new result.at) ≡ false)
        × (has_room buf.old at ≡ false → result ≡ record { at = at; rest = r }) }
{
    let mut at = at;
    let mut r = r;
    // Kept: no index is counted. It ends where the buffer is full, or in its midst where the block is done.
    while has_room(buf.len(), at) {
        match r.next() {
            Some(n) => {
                at = listed::put_line(buf, at, n.line);
                r = n.rest;
            }
            None => break,
        }
    }
    Filled { at, rest: r }
}

// Whether the longest line, of 40 bytes, has room from `at` on in a buffer of n bytes.
fn has_room(n: usize, at: usize) -> bool
    ensures { result ≡ nat_le (at + 40) n }
{
    40 <= n && at <= n - 40
}

// Whether a line is left, and fits.
pub(crate) fn goes_on(done: bool, n: usize, at: usize) -> bool
    ensures { result ≡ (not done && nat_le (at + 40) n) }
{
    !done && has_room(n, at)
}
