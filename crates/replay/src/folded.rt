// An update that says that it has more than 64 values. Lines were once read into 256 words, the mask and the count the first two of them,
// and a word behind the last was the first again. So of 256 values the last two stand for the mask and the count, and such a line is
// answered by them where that count is at most 64. It is read in the same way here, so that every line has the answer that it had.
use fields::{Answer, Fields};
use hopper::hexapod;
use hopper::hexapod::{Foot, HexapodTypes, Point};
use numbers::patterns;

// The 256 words, the last two values first.
fn words(line: &mut Fields) -> Option<[u32; 256]> {
    let mut words = [0u32; 256];
    for i in 2..258usize {
        let mut field = *line;
        if field.text()?.len() != 8 {
            return None;
        }
        words[i % 256] = line.number()?;
    }
    line.end()?;
    Some(words)
}

// A foot whose point stands at a place among the words.
fn foot(words: &[u32; 256], at: usize, lifted: bool) -> Option<Foot> {
    let at = at % 256;
    let point = Point {
        x: patterns::from_pattern(*words.get(at)?),
        y: patterns::from_pattern(*words.get(at + 1)?),
        z: patterns::from_pattern(*words.get(at + 2)?),
    };
    Some(Foot { point, lifted })
}

// Whether the bit of a place stands.
fn is_set(marks: u32, bit: u32) -> bool {
    (marks >> (bit % 32)) % 2 == 1
}

/// The answer: the feet after, or why not, and the row as the words have it.
pub fn update(line: &mut Fields, to: &mut Answer) -> Option<()> {
    let words = words(line)?;
    let n = words[1] as usize;
    if 64 < n {
        return None;
    }
    let row = 3 + 3 * n;
    let of_row = words[row + 18];
    let mut legs = [foot(&words, row, is_set(of_row, 0))?; 6];
    for (leg, place) in legs.iter_mut().zip(0..6u32) {
        *leg = foot(&words, row + 3 * place as usize, is_set(of_row, place))?;
    }
    let feet = HexapodTypes::from_legs(legs);
    let mut values = [legs[0]; 64];
    let mut marks = words[2 + 3 * n];
    let mut at = 2usize;
    for value in values[..n].iter_mut() {
        *value = foot(&words, at, is_set(marks, 0))?;
        at = at % 256 + 3;
        marks = marks / 2;
    }
    match hexapod::updated_from_first(feet, values, n, words[0]) {
        Ok(after) => {
            to.ok();
            to.feet(after);
        }
        Err(refusal) => {
            to.refused(refusal);
            to.text(b"row");
            for word in &words[row..row + 18] {
                to.bits(*word);
            }
            if line.has_marks() {
                to.marks(feet.map(|foot| foot.lifted));
            }
        }
    }
    Some(())
}
