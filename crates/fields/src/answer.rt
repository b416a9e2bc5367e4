// An answer as a line of text: its fields are parted by single blanks.
ghost use Rattle.std.specs.Prelude.{◌≤◌};

use legs::{Feet, HexapodTypes, Point, RowOfSix};
use moves::{Moving, Step};
use numbers::{Refusal, patterns};
use std::fmt::Write as _;
use std::io::Write;
use std::{fmt, io};

/// More bytes than the longest answer has.
const ROOM: usize = 4096;

/// An answer. Each method writes a field behind the others, or several.
// Kept: a row with a length beside it, for an answer is put together with no heap.
#[derive(Clone, Copy)]
pub struct Answer {
    text: [u8; 4096],
    len: usize,
    shows_marks: bool,
    ghost fits: { len ≤ 4096 },
}

impl fmt::Write for Answer {
    fn write_str(&mut self, s: &str) -> fmt::Result {
        self.raw(s.as_bytes());
        Ok(())
    }
}

impl Answer {
    /// No fields yet. Feet are written with their marks or without.
    pub fn new(shows_marks: bool) -> Answer {
        Answer {
            text: [0; 4096],
            len: 0,
            shows_marks,
        }
    }

    // Bytes behind the others.
    fn raw(&mut self, s: &[u8]) {
        for b in s {
            if self.len < ROOM {
                self.text[self.len] = *b;
                self.len += 1;
            }
        }
    }

    // What parts a field from the one before it.
    fn part(&mut self) {
        if 0 < self.len {
            self.raw(b" ");
        }
    }

    /// Bytes as they are.
    pub fn text(&mut self, s: &[u8]) {
        self.part();
        self.raw(s);
    }

    /// `ok`, which the values follow.
    pub fn ok(&mut self) {
        self.text(b"ok");
    }

    /// The answer to a line that does not parse.
    pub fn unreadable() -> Answer {
        let mut answer = Answer::new(false);
        answer.text(b"E");
        answer
    }

    /// `R` and the number of a refusal.
    pub fn refused(&mut self, refusal: Refusal) {
        self.refused_by(refusal.number());
    }

    /// The same of a refusal's number.
    pub fn refused_by(&mut self, number: u32) {
        self.text(b"R");
        self.decimal(number);
    }

    /// A number in decimal digits.
    pub fn decimal(&mut self, n: u32) {
        self.part();
        let _ = write!(self, "{n}");
    }

    /// A whole number in decimal digits, behind a minus if it is negative.
    pub fn whole(&mut self, n: i32) {
        self.part();
        let _ = write!(self, "{n}");
    }

    /// A u32 in eight hex digits.
    pub fn bits(&mut self, n: u32) {
        self.part();
        let _ = write!(self, "{n:08x}");
    }

    /// A u16 in four hex digits.
    pub fn short(&mut self, n: u16) {
        self.part();
        let _ = write!(self, "{n:04x}");
    }

    /// Bytes in two hex digits each, as one field, or `-` for none.
    pub fn bytes(&mut self, s: &[u8]) {
        self.part();
        if s.is_empty() {
            self.raw(b"-");
        }
        for b in s {
            let _ = write!(self, "{b:02x}");
        }
    }

    /// The bits of a float; of any NaN those of one.
    pub fn float(&mut self, x: f32) {
        self.bits(patterns::pattern_of(x).unwrap_or(0x7fc0_0000));
    }

    /// x, y, z.
    pub fn point(&mut self, p: Point) {
        self.float(p.x);
        self.float(p.y);
        self.float(p.z);
    }

    // A mark, behind the others of its field.
    fn mark(&mut self, lifted: bool) {
        self.raw(if lifted { b"1" } else { b"0" });
    }

    /// Six marks in row order, as one field.
    pub fn marks(&mut self, lifted: HexapodTypes<bool>) {
        self.part();
        for leg in lifted.as_legs() {
            self.mark(leg);
        }
    }

    /// The points of six feet in row order, and their marks where they are shown.
    pub fn feet(&mut self, feet: Feet) {
        for foot in feet.as_legs() {
            self.point(foot.point);
        }
        if self.shows_marks {
            self.marks(feet.map(|foot| foot.lifted));
        }
    }

    /// The length in decimal, that many points, and their marks where they are shown.
    pub fn row(&mut self, row: RowOfSix) {
        let feet = &row.feet[..row.len.min(6)];
        self.decimal(feet.len() as u32);
        for foot in feet {
            self.point(foot.point);
        }
        if self.shows_marks & (0 < row.len) {
            self.part();
            for foot in feet {
                self.mark(foot.lifted);
            }
        }
    }

    /// `ok` and what `say` writes of the value, or the refusal.
    pub fn result<T, F: FnOnce(&mut Answer, T)>(&mut self, answer: Result<T, Refusal>, say: F)
        requires { F.IsAlwaysCallable say }
    {
        match answer {
            Ok(value) => {
                self.ok();
                say(self, value);
            }
            Err(refusal) => self.refused(refusal),
        }
    }

    /// `M` for moved or `A` for arrived, and the place.
    pub fn step<T, F: FnOnce(&mut Answer, T)>(&mut self, step: Step<T>, say: F)
        requires { F.IsAlwaysCallable say }
    {
        match step {
            Step::Moved(place) => {
                self.text(b"M");
                say(self, place);
            }
            Step::Arrived(place) => {
                self.text(b"A");
                say(self, place);
            }
        }
    }

    /// What is on its way: last, target, max move.
    pub fn moving<T: Copy, F: Fn(&mut Answer, T)>(&mut self, moving: Moving<T>, say: F)
        requires { F.IsAlwaysCallable say }
    {
        say(self, moving.last);
        say(self, moving.target);
        self.float(moving.max_move);
    }

    /// `M`, the place and the state after, or `D`: it stands at its target.
    pub fn next<T: Copy, F: Fn(&mut Answer, T)>(&mut self, next: Option<(T, Moving<T>)>, say: F)
        requires { F.IsAlwaysCallable say }
    {
        match next {
            Some((place, after)) => {
                self.text(b"M");
                say(self, place);
                self.moving(after, say);
            }
            None => self.text(b"D"),
        }
    }

    /// The line is written out.
    pub fn print<W: Write>(mut self, to: &mut W) -> io::Result<()> {
        self.raw(b"\n");
        to.write_all(&self.text[..self.len])
    }
}
