// The operations on foot moves, of a point or a vector and of six feet.
use fields::operation::Moves;
use fields::{Answer, Fields};
use hopper::foot_moves;
use hopper::foot_moves::Moving;
use hopper::hexapod::{Feet, Point};

// Last, target, max move, of a point.
fn point_on_its_way(line: &mut Fields) -> Option<Moving<Point>> {
    let last = line.point()?;
    let target = line.point()?;
    let max_move = line.float()?;
    line.end()?;
    Some(Moving {
        target,
        max_move,
        last,
    })
}

// The same of six feet.
fn feet_on_their_way(line: &mut Fields) -> Option<Moving<Feet>> {
    let last = line.feet()?;
    let target = line.feet()?;
    let max_move = line.float()?;
    line.end()?;
    Some(Moving {
        target,
        max_move,
        last,
    })
}

// mv: last, target, max move.
fn point_move(line: &mut Fields, to: &mut Answer) -> Option<()> {
    let m = point_on_its_way(line)?;
    let moved = foot_moves::move_towards(m.last, m.target, m.max_move);
    to.result(moved, |to, step| to.step(step, Answer::point));
    Some(())
}

// mv6: the same of six feet.
fn feet_move(line: &mut Fields, to: &mut Answer) -> Option<()> {
    let m = feet_on_their_way(line)?;
    let moved = foot_moves::move_feet_towards(m.last, m.target, m.max_move);
    to.result(moved, |to, step| to.step(step, Answer::feet));
    Some(())
}

// iter: last, target, max move.
fn point_iter(line: &mut Fields, to: &mut Answer) -> Option<()> {
    let m = point_on_its_way(line)?;
    let state = foot_moves::to_move_towards_iter(m.last, m.target, m.max_move);
    to.result(state, |to, moving| to.moving(moving, Answer::point));
    Some(())
}

// iter6: the same of six feet.
fn feet_iter(line: &mut Fields, to: &mut Answer) -> Option<()> {
    let m = feet_on_their_way(line)?;
    let state = foot_moves::feet_to_move_towards_iter(m.last, m.target, m.max_move);
    to.result(state, |to, moving| to.moving(moving, Answer::feet));
    Some(())
}

// next: last, target, max move.
fn next_point(line: &mut Fields, to: &mut Answer) -> Option<()> {
    let moving = point_on_its_way(line)?;
    to.result(moving.next(), |to, next| to.next(next, Answer::point));
    Some(())
}

// next6: the same of six feet.
fn next_feet(line: &mut Fields, to: &mut Answer) -> Option<()> {
    let moving = feet_on_their_way(line)?;
    to.result(moving.next(), |to, next| to.next(next, Answer::feet));
    Some(())
}

// walk: max move, start, target.
fn point_walk(line: &mut Fields, to: &mut Answer) -> Option<()> {
    let max_move = line.float()?;
    let start = line.point()?;
    let target = line.point()?;
    line.end()?;
    to.result(foot_moves::walk(max_move, start, target), |to, count| {
        to.decimal(count);
        to.point(target);
    });
    Some(())
}

// walk6: the same of six feet, which come to the target's points with the start's marks.
fn feet_walk(line: &mut Fields, to: &mut Answer) -> Option<()> {
    let max_move = line.float()?;
    let start = line.feet()?;
    let target = line.feet()?;
    line.end()?;
    let end = legs::unchecked::marked_as(start, legs::unchecked::points_of(target));
    to.result(
        foot_moves::walk_feet(max_move, start, target),
        |to, count| {
            to.decimal(count);
            to.feet(end);
        },
    );
    Some(())
}

// ldist: two rows.
fn longest(line: &mut Fields, to: &mut Answer) -> Option<()> {
    let a = line.feet()?;
    let b = line.feet()?;
    line.end()?;
    to.result(foot_moves::longest_distance(a, b), Answer::float);
    Some(())
}

/// The answer to a line on foot moves.
pub fn answer(operation: Moves, line: &mut Fields, to: &mut Answer) -> Option<()> {
    match operation {
        Moves::Move => point_move(line, to),
        Moves::Iterate => point_iter(line, to),
        Moves::Next => next_point(line, to),
        Moves::Walk => point_walk(line, to),
        Moves::MoveFeet => feet_move(line, to),
        Moves::IterateFeet => feet_iter(line, to),
        Moves::NextFeet => next_feet(line, to),
        Moves::WalkFeet => feet_walk(line, to),
        Moves::LongestDistance => longest(line, to),
    }
}
