// Foot moves: one step towards a target, for a point or a vector and for six feet, and the states that make step
// after step; the longest distance between two sets of feet (source 001). Lengths are metres.
#![tactic(auto)]

ghost use Rattle.std.specs.Prelude.{◌≡◌};
ghost use Rattle.numbers.specs.Answers.{told as told_number};
ghost use Rattle.numbers.specs.Refusals.{number_or_0};
ghost use Rattle.moves.specs.Answers.{told, told_feet, told_point_iter, told_feet_iter, told_next_point, told_next_feet};
ghost use Rattle.moves.specs.Refusals.{move_refusal, move_feet_refusal, longest_refusal};
ghost use Rattle.moves.specs.Entries.{move_told, move_feet_told, longest_told};
ghost use Rattle.moves.specs.Iterators.{point_iter_told, feet_iter_told, next_point_told, next_feet_told, after};
ghost use Rattle.moves.specs.Moving.{place_of, has_moved};

use legs::{Feet, Point, Points};
use numbers::{Refusal, door};

mod place;
pub mod unchecked;

pub use place::Place;

/// What one step makes of a place: moved to a new one, or at its target already.
#[derive(Clone, Copy, Debug, PartialEq)]
pub enum Step<T> {
    /// It moved to this place, which may be the target.
    Moved(T),
    /// It stood at its target, and stays there.
    Arrived(T),
}

/// A step of a point or a vector.
pub type MoveStep = Step<Point>;

/// A step of six points: one moved at least, or all are at their targets already.
pub type PointsStep = Step<Points>;

/// The same of six feet.
pub type FeetStep = Step<Feet>;

impl<T: Copy> Step<T> {
    /// The place after the step.
    #[tactic(auto, unfolding(crate::specs::Moving::place_of))]
    pub fn place(self) -> T
        ensures { result ≡ place_of self }
    {
        match self {
            Step::Moved(place) => place,
            Step::Arrived(place) => place,
        }
    }

    /// Whether the step moved.
    #[tactic(auto, unfolding(crate::specs::Moving::has_moved))]
    pub fn has_moved(self) -> bool
        ensures { result ≡ has_moved self }
    {
        matches!(self, Step::Moved(_))
    }
}

/// What is on its way to a target, one step of at most `max_move` metres at a time.
#[derive(Clone, Copy, Debug, PartialEq)]
pub struct Moving<T> {
    /// Where it goes.
    pub target: T,
    /// How far a step takes it at most, in metres, 0 to 1.
    pub max_move: f32,
    /// Where it is.
    pub last: T,
}

/// A point on its way.
pub type MovingPoint = Moving<Point>;

/// Six feet on their way.
pub type MovingFeet = Moving<Feet>;

impl<T: Copy> Moving<T> {
    /// The place of a step that moved, with the state that remembers it. Nothing where the step did not move.
    fn after(self, step: Step<T>) -> Option<(T, Moving<T>)>
        ensures { result ≡ after self step }
    {
        match step {
            Step::Moved(place) => Some((
                place,
                Moving {
                    last: place,
                    ..self
                },
            )),
            Step::Arrived(_) => None,
        }
    }
}

/// Why a step is refused, the lowest number that applies: 1, a float is NaN or infinite; 2, one lies outside the table.
pub fn admit_move(last: Point, target: Point, max_move: f32) -> Result<(), Refusal>
    ensures { number_or_0 result ≡ move_refusal last target max_move }
{
    let place = numbers::limits::foot_limit();
    let longest = numbers::limits::max_move();
    unchecked::admit(place, longest, last, target, max_move)
}

/// The same over six feet.
pub fn admit_move_feet(last: Feet, target: Feet, max_move: f32) -> Result<(), Refusal>
    ensures { number_or_0 result ≡ move_feet_refusal last target max_move }
{
    let place = numbers::limits::foot_limit();
    let longest = numbers::limits::max_move();
    unchecked::admit(place, longest, last, target, max_move)
}

// Kept: an entry of a point beside one of six feet, three times over. Both names are the face's (docs/API.md), each body is two lines,
// and one generic function behind them would add a third.

/// A point or a vector takes one step of at most `max_move` metres towards its target.
/// Refused are 1 and 2, as by `admit_move`; so in all below.
#[tactic(auto, using(numbers::proofs::Admitted::entry), unfolding(crate::specs::Entries::move_told))]
pub fn move_towards(last: Point, target: Point, max_move: f32) -> Result<MoveStep, Refusal>
    ensures { told result ≡ move_told last target max_move }
{
    admit_move(last, target, max_move)?;
    Ok(unchecked::move_towards(last, target, max_move))
}

/// Six feet take one step each, and keep the marks that they had last.
#[tactic(auto, using(numbers::proofs::Admitted::entry), unfolding(crate::specs::Entries::move_feet_told))]
pub fn move_feet_towards(last: Feet, target: Feet, max_move: f32) -> Result<FeetStep, Refusal>
    ensures { told_feet result ≡ move_feet_told last target max_move }
{
    admit_move_feet(last, target, max_move)?;
    Ok(unchecked::move_feet_towards(last, target, max_move))
}

/// A point sets out for its target.
#[tactic(auto, using(numbers::proofs::Admitted::entry), unfolding(crate::specs::Iterators::point_iter_told))]
pub fn to_move_towards_iter(
    last: Point,
    target: Point,
    max_move: f32,
) -> Result<MovingPoint, Refusal>
    ensures { told_point_iter result ≡ point_iter_told last target max_move }
{
    admit_move(last, target, max_move)?;
    Ok(Moving {
        target,
        max_move,
        last,
    })
}

/// Six feet set out for their targets.
#[tactic(auto, using(numbers::proofs::Admitted::entry), unfolding(crate::specs::Iterators::feet_iter_told))]
pub fn feet_to_move_towards_iter(
    last: Feet,
    target: Feet,
    max_move: f32,
) -> Result<MovingFeet, Refusal>
    ensures { told_feet_iter result ≡ feet_iter_told last target max_move }
{
    admit_move_feet(last, target, max_move)?;
    Ok(Moving {
        target,
        max_move,
        last,
    })
}

impl Moving<Point> {
    /// One step more. All the state's floats are looked at again.
    #[tactic(auto, using(numbers::proofs::Admitted::entry), unfolding(crate::specs::Iterators::next_point_told))]
    pub fn next(self) -> Result<Option<(Point, MovingPoint)>, Refusal>
        ensures { told_next_point result ≡ next_point_told self }
    {
        admit_move(self.last, self.target, self.max_move)?;
        Ok(unchecked::next_point(self))
    }
}

impl Moving<Feet> {
    /// One step more. All the state's floats are looked at again.
    #[tactic(auto, using(numbers::proofs::Admitted::entry), unfolding(crate::specs::Iterators::next_feet_told))]
    pub fn next(self) -> Result<Option<(Feet, MovingFeet)>, Refusal>
        ensures { told_next_feet result ≡ next_feet_told self }
    {
        admit_move_feet(self.last, self.target, self.max_move)?;
        Ok(unchecked::next_feet(self))
    }
}

/// Why a longest distance is refused: 1 or 2 as of a step.
pub fn admit_longest(a: Feet, b: Feet) -> Result<(), Refusal>
    ensures { number_or_0 result ≡ longest_refusal a b }
{
    let limit = numbers::limits::foot_limit();
    if legs::unchecked::feet_permitted(limit, a) & legs::unchecked::feet_permitted(limit, b) {
        Ok(())
    } else {
        Err(door::outside(legs::unchecked::feet_finite(a) & legs::unchecked::feet_finite(b)))
    }
}

/// The largest of the six distances between two sets of feet, in x, y and z.
#[tactic(auto, using(numbers::proofs::Admitted::entry), unfolding(crate::specs::Entries::longest_told))]
pub fn longest_distance(a: Feet, b: Feet) -> Result<f32, Refusal>
    ensures { told_number result ≡ longest_told a b }
{
    admit_longest(a, b)?;
    let from = legs::unchecked::points_of(a);
    let to = legs::unchecked::points_of(b);
    Ok(unchecked::longest_distance(from, to))
}
