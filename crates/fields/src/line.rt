// A line of text: fields that are parted by single blanks.
use crate::operation;
use crate::operation::Operation;
use legs::{Feet, Foot, HexapodTypes, Point};
use lines::digits;
use numbers::patterns;

/// A longer line is not read.
pub const LONGEST: usize = 4096;

/// Whether a line is no operation: it is empty, or begins with `#`.
pub fn is_note(line: &[u8]) -> bool {
    match line.first() {
        Some(b) => (*b == b'#') & (line.len() <= LONGEST),
        None => true,
    }
}

/// A foot, lifted where the mark stands.
fn marked(point: Point, lifted: bool) -> Foot {
    Foot { point, lifted }
}

/// What is still to be read of a line, whose feet have marks or not. Each method takes a field off its front, or several, and gives `None`
/// where one is missing or of another kind.
#[derive(Clone, Copy)]
pub struct Fields<'a> {
    rest: Option<&'a [u8]>,
    has_marks: bool,
}

impl<'a> Fields<'a> {
    /// All fields of a line. One that is too long has none.
    pub fn of(line: &'a [u8]) -> Fields<'a> {
        Fields {
            rest: if line.len() <= LONGEST {
                Some(line)
            } else {
                None
            },
            has_marks: false,
        }
    }

    /// The operation that the first field names. It says whether feet have marks from there on.
    pub fn operation(&mut self) -> Option<Operation> {
        let (operation, has_marks) = operation::named(self.text()?)?;
        self.has_marks = has_marks;
        Some(operation)
    }

    /// Whether feet have marks.
    pub fn has_marks(self) -> bool {
        self.has_marks
    }

    /// The next field as it is.
    pub fn text(&mut self) -> Option<&'a [u8]> {
        let rest = self.rest?;
        match rest.iter().position(|b| *b == b' ') {
            Some(n) => {
                self.rest = Some(&rest[n + 1..]);
                Some(&rest[..n])
            }
            None => {
                self.rest = None;
                Some(rest)
            }
        }
    }

    /// All fields that are left, as they are.
    pub fn as_text(self) -> Option<&'a [u8]> {
        self.rest
    }

    /// That no field is left.
    pub fn end(self) -> Option<()> {
        match self.rest {
            Some(_) => None,
            None => Some(()),
        }
    }

    // From `least` to eight hex digits.
    fn hex(&mut self, least: usize) -> Option<u32> {
        u32::try_from(digits::hex(self.text()?, least, 8)?).ok()
    }

    /// A number of one to sixteen hex digits.
    pub fn long(&mut self) -> Option<u64> {
        digits::hex(self.text()?, 1, 16)
    }

    /// A number of one to eight hex digits.
    pub fn number(&mut self) -> Option<u32> {
        self.hex(1)
    }

    /// `0` or `1`.
    pub fn flag(&mut self) -> Option<bool> {
        match self.text()? {
            b"0" => Some(false),
            b"1" => Some(true),
            _ => None,
        }
    }

    /// A float: the eight hex digits of its bits.
    pub fn float(&mut self) -> Option<f32> {
        Some(patterns::from_pattern(self.hex(8)?))
    }

    /// x, y, z.
    pub fn point(&mut self) -> Option<Point> {
        Some(Point {
            x: self.float()?,
            y: self.float()?,
            z: self.float()?,
        })
    }

    /// A point, or `-` for none.
    pub fn known_point(&mut self) -> Option<Option<Point>> {
        let mut after = *self;
        if matches!(after.text()?, b"-") {
            *self = after;
            Some(None)
        } else {
            Some(Some(self.point()?))
        }
    }

    /// Six points in row order.
    pub fn points(&mut self) -> Option<HexapodTypes<Point>> {
        Some(HexapodTypes::from_legs([
            self.point()?,
            self.point()?,
            self.point()?,
            self.point()?,
            self.point()?,
            self.point()?,
        ]))
    }

    /// Six marks in row order, one bit each, as one field.
    pub fn marks(&mut self) -> Option<HexapodTypes<bool>> {
        let text = self.text()?;
        if text.len() != 6 {
            return None;
        }
        Some(HexapodTypes::from_legs([
            bit(text[0])?,
            bit(text[1])?,
            bit(text[2])?,
            bit(text[3])?,
            bit(text[4])?,
            bit(text[5])?,
        ]))
    }

    /// Six feet: their points, and behind them their marks; where feet have none they stand.
    pub fn feet(&mut self) -> Option<Feet> {
        let points = self.points()?;
        if self.has_marks {
            Some(points.zip_with(self.marks()?, marked))
        } else {
            Some(points.map(|point| marked(point, false)))
        }
    }

    /// `n` feet, at most 64, in the same way. The others stand at the origin.
    pub fn row(&mut self, n: usize) -> Option<[Foot; 64]> {
        let origin = Point {
            x: 0.0,
            y: 0.0,
            z: 0.0,
        };
        let mut feet = [marked(origin, false); 64];
        if 64 < n {
            return None;
        }
        for foot in feet[..n].iter_mut() {
            foot.point = self.point()?;
        }
        if self.has_marks & (0 < n) {
            let text = self.text()?;
            if text.len() != n {
                return None;
            }
            for (foot, b) in feet.iter_mut().zip(text) {
                foot.lifted = bit(*b)?;
            }
        }
        Some(feet)
    }

    /// A whole number in decimal: `0`, or a minus or none and digits that do not begin with 0.
    pub fn whole(&mut self) -> Option<i32> {
        let text = self.text()?;
        match text.strip_prefix(b"-") {
            Some(size) => {
                let n = decimal(size)?;
                if (0 < n) & (n <= 0x8000_0000) {
                    Some((-(n as i64)) as i32)
                } else {
                    None
                }
            }
            None => {
                let n = decimal(text)?;
                if n < 0x8000_0000 {
                    Some(n as i32)
                } else {
                    None
                }
            }
        }
    }
}

/// A mark.
fn bit(b: u8) -> Option<bool> {
    match b {
        b'0' => Some(false),
        b'1' => Some(true),
        _ => None,
    }
}

/// Up to ten decimal digits that do not begin with 0, or 0 alone. `lines` reads up to nine of them.
fn decimal(text: &[u8]) -> Option<u64> {
    match text.split_last() {
        Some((last, front)) => {
            if front.len() == 9 {
                let ten = digits::count(front, 9)?.checked_mul(10)?;
                ten.checked_add(digits::count(&[*last], 1)?)
            } else {
                digits::count(text, 9)
            }
        }
        None => None,
    }
}
