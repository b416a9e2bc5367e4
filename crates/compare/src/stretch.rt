// A stretch of positions whose lines lie whole in a chunk of each file: told one after the other into a lent buffer.
ghost use Rattle.std.specs.Prelude.{◌≡◌, []};
ghost use Rattle.numbers.specs.Told.{choose};
ghost use Rattle.numbers.specs.Stored.{Stored};
ghost use Rattle.lines.specs.Compared.{told_text, has_told_room};
ghost use Rattle.compare.specs.Stretch.{told_at, Goes, Onward};

use crate::step;
use crate::step::{State, Step};
use lines::{compared, fields};

// Kept: a flag beside places that stand either way: where nothing more is told, what is stored is still to be written out.

/// How far it has come: the place behind what is stored, where either chunk goes on, the state, and whether nothing more is told.
#[derive(Clone, Copy, Debug, PartialEq, Eq)]
pub struct Reached {
    pub at: usize,
    pub bench: usize,
    pub office: usize,
    pub st: State,
    pub done: bool,
}

// A position is told, and both chunks go on behind their lines.
fn told_at(buf: &mut [u8], at: usize, s: Step, bench: usize, office: usize) -> Reached
    ensures { (result ≡ told_at result.at s bench office)
        × Stored buf.old at (choose (has_told_room buf.old at) (told_text s.told) []) result.at buf.new }
{
    let told = s.told;
    let st = s.next;
    Reached {
        at: compared::put_told(buf, at, told),
        bench,
        office,
        st,
        done: step::is_last(told),
    }
}

// One position more. `None` where it goes no further: nothing more is told, a chunk has no whole line left, or the buffer no room.
fn onward(buf: &mut [u8], bench: &[u8], office: &[u8], r: Reached) -> Option<Reached>
    ensures { Onward bench.now office.now buf.old r buf.new result }
{
    let i = r.bench;
    let j = r.office;
    let e = fields::field_end(bench, i, b'\n');
    let f = fields::field_end(office, j, b'\n');
    if r.done || bench.len() <= e || office.len() <= f || !compared::has_room(buf.len(), r.at) {
        return None;
    }
    let step = step::lines(r.st, &bench[i..e], &office[j..f]);
    Some(told_at(buf, r.at, step, e + 1, f + 1))
}

/// As far as it goes.
pub fn gone(buf: &mut [u8], bench: &[u8], office: &[u8], r: Reached) -> Reached
    ensures { Goes bench.now office.now buf.old r buf.new result }
{
    let mut r = r;
    while let Some(next) = onward(buf, bench, office, r) {
        r = next;
    }
    r
}
