// The walk that ends: how many steps of at most max_move take a point, or six feet, to the target (source 001).
// Lengths are metres.
#![tactic(auto)]

ghost use Rattle.std.specs.Prelude.{◌≡◌};
ghost use Rattle.numbers.specs.Refusals.{number_or_0};
ghost use Rattle.legs.specs.Legs.{points};
ghost use Rattle.walks.specs.Walk.{Walk, WalkFeet};
ghost use Rattle.walks.specs.Answers.{told, walk_refusal, walk_feet_refusal, Counts};

use legs::{Feet, Point};
use numbers::Refusal;

pub mod unchecked;

/// Why a walk is refused, the lowest number that applies: 1, a float is NaN or infinite; 2, one lies outside the rows for a walk.
pub fn admit_walk(max_move: f32, start: Point, target: Point) -> Result<(), Refusal>
    ensures { number_or_0 result ≡ walk_refusal max_move start target }
{
    let place = numbers::limits::walk_foot();
    let longest = numbers::limits::walk_move();
    moves::unchecked::admit(place, longest, start, target, max_move)
}

/// The same over six feet.
pub fn admit_walk_feet(max_move: f32, start: Feet, target: Feet) -> Result<(), Refusal>
    ensures { number_or_0 result ≡ walk_feet_refusal max_move start target }
{
    let place = numbers::limits::walk_foot();
    let longest = numbers::limits::walk_move();
    moves::unchecked::admit(place, longest, start, target, max_move)
}

/// How many steps of at most `max_move` metres a point makes to its target. Refused are 1 and 2, as by `admit_walk`.
pub fn walk(max_move: f32, start: Point, target: Point) -> Result<u32, Refusal>
    ensures { Counts (walk_refusal max_move start target) (Walk max_move start target) (told result) }
{
    admit_walk(max_move, start, target)?;
    Ok(unchecked::walk(max_move, start, target))
}

/// How many steps six feet make until every one is at its target, by their points; each keeps its mark on the way.
pub fn walk_feet(max_move: f32, start: Feet, target: Feet) -> Result<u32, Refusal>
    ensures { Counts (walk_feet_refusal max_move start target) (WalkFeet max_move (points start) (points target)) (told result) }
{
    admit_walk_feet(max_move, start, target)?;
    let from = legs::unchecked::points_of(start);
    let to = legs::unchecked::points_of(target);
    Ok(unchecked::walk_feet(max_move, from, to))
}
