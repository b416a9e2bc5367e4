// The operations behind the door, total on every value, for the rooms above.
ghost use Rattle.std.specs.Prelude.{◌≡◌};
ghost use Rattle.numbers.specs.Refusals.{number_or_0};
ghost use Rattle.numbers.proofs.OnePass.{FiniteEnds};
ghost use Rattle.moves.specs.Refusals.{refusal_by};
ghost use Rattle.roots.specs.Root.{square_root};
ghost use Rattle.moves.specs.Distance.{same, square_sum, horizontal_sum, distance};
ghost use Rattle.moves.specs.Distance.{largest, longest_distance, max_horizontal_distance};
ghost use Rattle.moves.specs.Moving.{along, nearer, move_towards};
ghost use Rattle.legs.specs.Legs.{lifted};
ghost use Rattle.legs.specs.Legs.{at, row};
ghost use Rattle.moves.specs.Moving.{together, move_points_towards, keeping, move_feet_towards};
ghost use Rattle.moves.specs.Iterators.{next_point, next_feet};

use crate::place::Place;
use crate::{FeetStep, MoveStep, MovingFeet, MovingPoint, PointsStep, Step};
use legs::{Feet, HexapodTypes, Point, Points};
use numbers::door::Limit;
use numbers::{Refusal, door};

/// Why a step is turned away: its places are not all in their row, or its max move is not in its own; 1 before 2.
/// What is permitted is finite, so that a step that is let through is looked at once.
pub fn admit<T: Place>(
    place: Limit,
    longest: Limit,
    last: T,
    target: T,
    max_move: f32,
) -> Result<(), Refusal>
    requires place_ends { FiniteEnds place }
    requires longest_ends { FiniteEnds longest }
    ensures { number_or_0 result ≡ refusal_by T.finite (T.permitted place) longest last target max_move }
{
    let permitted = last.is_permitted(place)
        & target.is_permitted(place)
        & door::is_permitted(longest, max_move);
    if permitted {
        Ok(())
    } else {
        Err(door::outside(last.is_finite() & target.is_finite() & door::is_finite(max_move)))
    }
}

/// Whether two points are equal in every component, as numbers.
#[tactic(auto, unfolding(crate::specs::Distance::same))]
pub fn is_same(a: Point, b: Point) -> bool
    ensures { result ≡ same a b }
{
    a == b
}

/// x², y², z² summed in that order, of the way from a to b.
#[tactic(auto, unfolding(crate::specs::Distance::square_sum))]
pub fn square_sum(a: Point, b: Point) -> f32
    ensures { result ≡ square_sum a b }
{
    let x = b.x - a.x;
    let y = b.y - a.y;
    let z = b.z - a.z;
    x * x + y * y + z * z
}

// x² and y² alone.
#[tactic(auto, unfolding(crate::specs::Distance::horizontal_sum))]
fn horizontal_sum(a: Point, b: Point) -> f32
    ensures { result ≡ horizontal_sum a b }
{
    let x = b.x - a.x;
    let y = b.y - a.y;
    x * x + y * y
}

/// The distance from a to b.
#[tactic(auto, unfolding(crate::specs::Distance::distance))]
pub fn distance(a: Point, b: Point) -> f32
    ensures { result ≡ distance a b }
{
    roots::unchecked::square_root(square_sum(a, b))
}

// max_move of the way to the target, where d is the whole of it.
#[tactic(auto, unfolding(crate::specs::Moving::along, crate::specs::Moving::component))]
fn along(d: f32, max_move: f32, last: Point, target: Point) -> Point
    ensures { result ≡ along d max_move last target }
{
    Point {
        x: last.x + ((target.x - last.x) / d) * max_move,
        y: last.y + ((target.y - last.y) / d) * max_move,
        z: last.z + ((target.z - last.z) / d) * max_move,
    }
}

/// The step of a point that is d away and not at its target.
#[tactic(auto, unfolding(crate::specs::Moving::nearer))]
pub fn nearer(d: f32, last: Point, target: Point, max_move: f32) -> Point
    ensures { result ≡ nearer d last target max_move }
{
    if d <= max_move {
        target
    } else {
        along(d, max_move, last, target)
    }
}

/// The step of a point that is not at its target: `nearer` at its distance.
pub fn onward(last: Point, target: Point, max_move: f32) -> Point
    ensures { result ≡ nearer (distance last target) last target max_move }
{
    // Kept: written out beside `distance` and `nearer`, since each way is taken once here, for the distance and for the step.
    let x = target.x - last.x;
    let y = target.y - last.y;
    let z = target.z - last.z;
    let d = roots::unchecked::square_root(x * x + y * y + z * z);
    if d <= max_move {
        return target;
    }
    Point {
        x: last.x + (x / d) * max_move,
        y: last.y + (y / d) * max_move,
        z: last.z + (z / d) * max_move,
    }
}

/// One step of at most max_move towards the target.
#[tactic(auto, unfolding(crate::specs::Moving::move_towards, crate::specs::Moving::step_at))]
pub fn move_towards(last: Point, target: Point, max_move: f32) -> MoveStep
    ensures { result ≡ move_towards last target max_move }
{
    if is_same(last, target) {
        Step::Arrived(target)
    } else {
        Step::Moved(onward(last, target, max_move))
    }
}

/// Six single steps as one answer: it moved where one of them did.
pub fn together(steps: HexapodTypes<MoveStep>) -> PointsStep
    ensures { result ≡ together (at steps) }
{
    let moved = steps.map(|step| step.has_moved());
    let points = steps.map(|step| step.place());
    if moved.any() {
        Step::Moved(points)
    } else {
        Step::Arrived(points)
    }
}

/// Six points move as six single ones.
#[tactic(auto, unfolding(crate::specs::Moving::move_points_towards))]
pub fn move_points_towards(last: Points, target: Points, max_move: f32) -> PointsStep
    ensures { result ≡ move_points_towards last target max_move }
{
    together(last.zip_with(target, |last, target| move_towards(last, target, max_move)))
}

// The step of six points as one of feet, with the marks that these feet have.
fn keeping(feet: Feet, step: PointsStep) -> FeetStep
    ensures { result ≡ keeping (lifted feet) step }
{
    match step {
        Step::Moved(points) => Step::Moved(legs::unchecked::marked_as(feet, points)),
        Step::Arrived(points) => Step::Arrived(legs::unchecked::marked_as(feet, points)),
    }
}

/// Six feet move as their points do, and keep their marks.
#[tactic(auto, unfolding(crate::specs::Moving::move_feet_towards))]
pub fn move_feet_towards(last: Feet, target: Feet, max_move: f32) -> FeetStep
    ensures { result ≡ move_feet_towards last target max_move }
{
    let from = legs::unchecked::points_of(last);
    let to = legs::unchecked::points_of(target);
    keeping(last, move_points_towards(from, to, max_move))
}

/// One step more of a point on its way; the state after remembers where it is.
#[tactic(auto, unfolding(crate::specs::Iterators::next_point))]
pub fn next_point(s: MovingPoint) -> Option<(Point, MovingPoint)>
    ensures { result ≡ next_point s }
{
    s.after(move_towards(s.last, s.target, s.max_move))
}

/// One step more of six feet on their way.
#[tactic(auto, unfolding(crate::specs::Iterators::next_feet))]
pub fn next_feet(s: MovingFeet) -> Option<(Feet, MovingFeet)>
    ensures { result ≡ next_feet s }
{
    s.after(move_feet_towards(s.last, s.target, s.max_move))
}

// The root of the largest of six squares, in row order: the largest of their roots.
fn largest_root(squares: HexapodTypes<f32>) -> f32
    ensures { result ≡ square_root (largest (row (at squares))) }
{
    // Kept: five comparisons in a row, since a fold over the row of six is no plainer and would copy the row first.
    let d = numbers::unchecked::max(squares.left_front, squares.right_front);
    let d = numbers::unchecked::max(d, squares.left_middle);
    let d = numbers::unchecked::max(d, squares.right_middle);
    let d = numbers::unchecked::max(d, squares.left_rear);
    roots::unchecked::square_root(numbers::unchecked::max(d, squares.right_rear))
}

/// The largest of the six distances in x, y and z.
#[tactic(auto, using(crate::proofs::Largest::longest_is_one_root))]
pub fn longest_distance(a: Points, b: Points) -> f32
    ensures { result ≡ longest_distance a b }
{
    largest_root(a.zip_with(b, |a, b| square_sum(a, b)))
}

/// The largest of the six distances in x and y only.
#[tactic(auto, using(crate::proofs::Largest::horizontal_is_one_root))]
pub fn max_horizontal_distance(a: Points, b: Points) -> f32
    ensures { result ≡ max_horizontal_distance a b }
{
    largest_root(a.zip_with(b, |a, b| horizontal_sum(a, b)))
}
