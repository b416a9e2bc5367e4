// The walks behind the door. They ask for numbers within reach, since from others a walk may never end.
ghost use Rattle.std.specs.Prelude.{◌≡◌, true, not};
ghost use Rattle.legs.specs.Legs.{point, every, lifted, marked};
ghost use Rattle.moves.specs.Distance.{same};
ghost use Rattle.walks.specs.How.{stride, strides, SetOut, SlowOnes};
ghost use Rattle.walks.specs.Walk.{Walk, WalkFeet};
ghost use Rattle.walks.specs.Reach.{Reach, ReachFeet};

use legs::{Feet, Foot, Point, Points};

/// The steps that move, of at most `max_move` metres each, until none does. A step is
/// `moves::unchecked::move_towards`, in its two parts.
pub fn walk(max_move: f32, start: Point, target: Point) -> u32
    requires { Reach max_move start target }
    ensures { Walk max_move start target result }
{
    let mut last = start;
    let mut count: u32 = 0;
    // Kept: the loop, since the count of steps is the answer, and no number is at hand for a `for` to go to.
    while !moves::unchecked::is_same(last, target) {
        last = moves::unchecked::onward(last, target, max_move);
        count += 1;
    }
    count
}

// Six feet that set out: all are lifted.
fn setting_out(start: Points) -> Feet
    ensures { result ≡ marked (λ l. true) start }
{
    start.map(|point| legs::unchecked::foot_at(point, true))
}

// One step of a foot. It is put down at its target, where it stays: no coordinate is looked at again.
#[tactic(auto, unfolding(crate::specs::How::stride))]
fn stride(lifted: bool, last: Point, target: Point, max_move: f32) -> Foot
    ensures { result ≡ stride lifted last target max_move }
{
    if lifted {
        let d = moves::unchecked::distance(last, target);
        if d <= max_move {
            return legs::unchecked::foot_at(target, false);
        }
        return legs::unchecked::foot_at(moves::unchecked::nearer(d, last, target, max_move), true);
    }
    legs::unchecked::foot_at(target, false)
}

// One step of each foot towards its target, by at most the max move.
#[tactic(auto, unfolding(crate::specs::How::strides))]
fn strides(last: Feet, target: Points, max_move: f32) -> Feet
    ensures { result ≡ strides last target max_move }
{
    last.zip_with(
        target,
        |foot, target| stride(foot.lifted, foot.point, target, max_move),
    )
}

// Whether every foot is put down.
fn all_down(feet: Feet) -> bool
    ensures { result ≡ every (λ l. not (lifted feet l)) }
{
    feet.map(|foot| !foot.lifted).all()
}

// Whether every foot is at its target.
fn all_arrived(last: Points, target: Points) -> bool
    ensures { result ≡ every (λ l. same (point last l) (point target l)) }
{
    let there = last.zip_with(
        target,
        |last, target| moves::unchecked::is_same(last, target),
    );
    there.all()
}

// Six feet walk in rounds of a step each, so that the machine can take their six roots at once. The
// last round counts, unless all had arrived before it.
fn walk_in_rounds(max_move: f32, start: Points, target: Points) -> u32
    requires { ReachFeet max_move start target }
    ensures { WalkFeet max_move start target result }
{
    let mut last = setting_out(start);
    let mut rounds: u32 = 0;
    // Kept: the loop, as in `walk`; its two ends answer two counts.
    loop {
        let next = strides(last, target, max_move);
        if all_down(next) {
            if all_arrived(legs::unchecked::points_of(last), target) {
                return rounds;
            }
            return rounds + 1;
        }
        last = next;
        rounds += 1;
    }
}

// Where a foot sets out: at its start, or at its target where it is sure to arrive before the
// slowest, whose distance the limit is a share of.
fn set_out(limit: f32, max_move: f32, start: Point, target: Point) -> Point
    ensures { SetOut limit max_move start target result }
{
    if limit * limit < moves::unchecked::square_sum(start, target) {
        return start;
    }
    if moves::unchecked::distance(start, target) + max_move <= limit {
        target
    } else {
        start
    }
}

// Six feet of which only the slow ones are not at their targets; where the first foot has a few
// steps only, all six as they are.
fn slow_ones(max_move: f32, start: Points, target: Points) -> Points
    ensures { SlowOnes max_move start target result }
{
    if moves::unchecked::square_sum(start.left_front, target.left_front)
        < max_move * max_move * 64.0
    {
        return start;
    }
    let limit = moves::unchecked::longest_distance(start, target) * 0.84375;
    start.zip_with(
        target,
        |start, target| set_out(limit, max_move, start, target),
    )
}

/// The slowest foot's count is the six feet's, so that only the slow ones are walked.
pub fn walk_feet(max_move: f32, start: Points, target: Points) -> u32
    requires { ReachFeet max_move start target }
    ensures { WalkFeet max_move start target result }
{
    walk_in_rounds(max_move, slow_ones(max_move, start, target), target)
}
