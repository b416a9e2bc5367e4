// One leg's step in whole numbers of 0.1 mm (request K13), for a leg board that has no floats. Nothing here has one.
#![tactic(auto)]

ghost use Rattle.std.specs.Prelude.{◌≡◌, true, ◌≤◌, ◌<◌};
ghost use Rattle.wholes.specs.Wholes.{in_range, is_coordinate, is_place, is_height, is_progress, used, sideways, upwards, whole_step};
ghost use Rattle.wholes.specs.Answers.{told, step_leg_told};

use numbers::Refusal;

mod table;

// The progress of a step that is done.
const DONE: u32 = 2_048;

/// A point, each coordinate in units of 0.1 mm.
#[derive(Clone, Copy, Debug, PartialEq, Eq)]
pub struct WholePoint {
    pub x: i32,
    pub y: i32,
    pub z: i32,
}

// A step whose numbers are in their ranges.
#[derive(Clone, Copy)]
struct Step {
    start: WholePoint,
    target: WholePoint,
    height: u32,
    progress: u32,
    ghost from_a_place: { is_place start ≡ true },
    ghost to_a_place: { is_place target ≡ true },
    ghost at_most_10_cm: { height ≤ 1000 },
    ghost at_most_done: { progress ≤ 2048 },
}

/// Where a leg's foot is at a progress from 0 to 2048, of which 2048 is done. Coordinates are from -40,000 to 40,000 and the height is
/// from 0 to 1,000, in units of 0.1 mm. `Refusal::Outside` where one of these numbers is outside its range.
pub fn step_leg(
    start: WholePoint,
    target: WholePoint,
    height: i32,
    progress: i32,
) -> Result<WholePoint, Refusal>
    ensures { told result ≡ step_leg_told start target height progress }
{
    if is_place(start) & is_place(target) & is_height(height) & is_progress(progress) {
        let step = Step {
            start,
            target,
            height: height as u32,
            progress: progress as u32,
        };
        Ok(step.foot())
    } else {
        Err(Refusal::Outside)
    }
}

// Whether a number lies in a range, its ends included.
// Kept: the new form is no plainer: `(from..=to).contains(&n)` says the same, and goes by way of a range's own state.
fn in_range(from: i32, to: i32, n: i32) -> bool
    ensures { result ≡ in_range from to n }
{
    (from <= n) & (n <= to)
}

// Whether all three coordinates are from -4 m to 4 m.
fn is_place(p: WholePoint) -> bool
    ensures { result ≡ is_place p }
{
    in_range(-40_000, 40_000, p.x) & in_range(-40_000, 40_000, p.y) & in_range(-40_000, 40_000, p.z)
}

// Whether a height is from 0 to 10 cm.
fn is_height(n: i32) -> bool
    ensures { result ≡ is_height n }
{
    in_range(0, 1_000, n)
}

// Whether a progress is from 0 to 2048, which is done.
fn is_progress(n: i32) -> bool
    ensures { result ≡ is_progress n }
{
    in_range(0, 2_048, n)
}

impl Step {
    // Where the foot is.
    fn foot(self) -> WholePoint
        ensures { result ≡ whole_step self.start self.target self.height self.progress }
    {
        let is_done = self.progress == DONE;
        if is_done {
            return self.target;
        }
        WholePoint {
            x: self.sideways(self.start.x, self.target.x),
            y: self.sideways(self.start.y, self.target.y),
            z: self.upwards(),
        }
    }

    // x or y: the start, and the share of the way. The shift divides by 2048 and rounds down.
    fn sideways(self, start: i32, target: i32) -> i32
        requires { (is_coordinate start ≡ true) × (is_coordinate target ≡ true) }
        ensures { result ≡ sideways start target self.progress }
    {
        start + (((target - start) * self.progress as i32) >> 11)
    }

    // The table's place for the progress: the sine falls as it rose.
    fn used(self) -> usize
        ensures { (result ≡ used self.progress) × (result < 1025) }
    {
        if self.progress <= 1_024 {
            self.progress as usize
        } else {
            (DONE - self.progress) as usize
        }
    }

    // z: the start's, and the share of the height.
    fn upwards(self) -> i32
        ensures { result ≡ upwards self.start.z self.height self.progress }
    {
        let sine = table::entry(self.used()) as u32;
        self.start.z + (self.height * sine / 16_384) as i32
    }
}
