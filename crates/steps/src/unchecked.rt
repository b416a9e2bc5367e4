// The operations behind the door, total on every value, for the rooms above.
ghost use Rattle.std.specs.Prelude.{◌≡◌};
ghost use Rattle.commands.specs.How.{capped};
ghost use Rattle.steps.specs.Refusals.{timely};
ghost use Rattle.steps.specs.Progress.{step_progress, timed_progress, even_progress};
ghost use Rattle.steps.specs.Leg.{step_lifted_leg};
ghost use Rattle.legs.specs.Legs.{left_front, right_front};
ghost use Rattle.steps.specs.Shift.{height_of, shift_legs};
ghost use Rattle.steps.specs.Marks.{mark_after, stepped};
ghost use Rattle.steps.specs.How.{at_once, swing, raised, leg_at, course_of, finite_along, permitted_along, pace_finite, pace_permitted};
ghost use Rattle.steps.specs.How.{finite_paced, permitted_paced};
ghost use Rattle.steps.specs.How.{by_distance, sideways, way_of, reached, on_its_way, admission, step_made, pace_of, paced_made, even_made};

use crate::Lift;
use commands::{Time, Tripod};
use legs::{Feet, Foot, HexapodTypes, Point, Points};
use moves::Step;
use numbers::{Refusal, door};

/// From where a step goes, where the feet were last, and to where. Start and target are looked at for their points alone.
#[derive(Clone, Copy, Debug, PartialEq)]
pub struct Course {
    pub start: Points,
    pub last: Feet,
    pub target: Points,
}

/// What a step goes by: the max move of its turn, or how far it is by time, as the source paces it or evenly.
#[derive(Clone, Copy, Debug, PartialEq)]
pub enum Pace {
    Distance(f32),
    Timed(f32),
    Even(f32),
}

// Where in its step a leg is: how far along its way, and how far above its start.
#[derive(Clone, Copy, Debug, PartialEq)]
struct Stage {
    progress: f32,
    above: f32,
}

/// Whether an elapsed time and a period are both in the table.
pub fn is_timely(elapsed: Time, period: Time) -> bool
    ensures { result ≡ timely elapsed period }
{
    commands::unchecked::is_elapsed(elapsed) & commands::unchecked::is_period(period)
}

/// How far the step is: what the feet have gone by now and max_move more, as a part of the whole way.
#[tactic(auto, unfolding(crate::specs::Progress::step_progress))]
pub fn step_progress(gone: f32, max_move: f32, full: f32) -> f32
    ensures { result ≡ step_progress gone max_move full }
{
    numbers::unchecked::min(gone + max_move, full) / full
}

/// How far the step is by time, divided by the period twice, as in the source.
#[tactic(auto, unfolding(crate::specs::Progress::timed_progress))]
pub fn timed_progress(elapsed: Time, period: Time) -> f32
    ensures { result ≡ timed_progress (capped elapsed) (capped period) }
{
    let seconds = commands::unchecked::as_secs_f32(period);
    commands::unchecked::as_secs_f32(elapsed) / seconds / seconds
}

/// The same at even pace, divided once.
#[tactic(auto, unfolding(crate::specs::Progress::even_progress))]
pub fn even_progress(elapsed: Time, period: Time) -> f32
    ensures { result ≡ even_progress (capped elapsed) (capped period) }
{
    let whole = commands::unchecked::as_secs_f32(period);
    commands::unchecked::as_secs_f32(elapsed) / whole
}

// Whether a foot is at its full height at once.
#[tactic(auto, using(crate::proofs::Bits::constants), unfolding(crate::specs::How::at_once))]
fn at_once(aggressive: bool, progress: f32) -> bool
    ensures { result ≡ at_once aggressive progress }
{
    aggressive & (progress < 0.5)
}

// The sine of the progress in half turns. It is asked for only where a foot's height needs it.
#[tactic(auto, using(crate::proofs::Bits::constants), unfolding(crate::specs::How::swing))]
fn swing(unused: bool, progress: f32) -> f32
    ensures { result ≡ swing unused progress }
{
    if unused | (1.0 <= progress) {
        0.0
    } else {
        sines::unchecked::sine(progress * 3.14159274)
    }
}

// How far a foot is above its start.
#[tactic(auto, unfolding(crate::specs::How::raised))]
fn raised(at_once: bool, swing: f32, height: f32) -> f32
    ensures { result ≡ raised at_once swing height }
{
    if at_once { height } else { swing * height }
}

// One leg's step, at this stage.
#[tactic(auto, using(crate::proofs::Bits::constants), unfolding(crate::specs::How::leg_at))]
fn leg_at(start: Point, last: Point, target: Point, at: Stage) -> Step<Point>
    ensures { result ≡ leg_at start last target at.progress at.above }
{
    let Stage { progress, above } = at;
    if moves::unchecked::is_same(last, target) {
        return Step::Arrived(target);
    }
    if 1.0 <= progress {
        return Step::Moved(target);
    }
    Step::Moved(Point {
        x: start.x + (target.x - start.x) * progress,
        y: start.y + (target.y - start.y) * progress,
        z: above + start.z,
    })
}

/// One leg's step.
#[tactic(auto, using(crate::proofs::Legs::leg_is))]
pub fn step_lifted_leg(
    start: Point,
    last: Point,
    target: Point,
    height: f32,
    progress: f32,
    aggressive: bool,
) -> Step<Point>
    ensures { result ≡ step_lifted_leg start last target height progress aggressive }
{
    let now = at_once(aggressive, progress);
    let at = Stage {
        progress,
        above: raised(now, swing(now, progress), height),
    };
    leg_at(start, last, target, at)
}

// The heights of left front, right middle and left rear, and of the other three: the step's for those that are lifted, else the descent.
fn heights(lift: Lift) -> (f32, f32)
    ensures { result ≡ (height_of lift left_front, height_of lift right_front) }
{
    match lift.tripod {
        Tripod::LRL => (lift.step_height, lift.grounded_leg_descent),
        Tripod::RLR => (lift.grounded_leg_descent, lift.step_height),
    }
}

/// All six legs follow the one rule; the three that stand use the descent as height.
// Kept: the six calls. Each takes of four sixes, start, last, target and stage; zip_with joins two, and nested pairs are no plainer.
#[tactic(auto, using(crate::proofs::Legs::leg_is), unfolding(crate::specs::Shift::shift_legs))]
pub fn shift_legs(
    start: Points,
    last: Points,
    target: Points,
    lift: Lift,
    progress: f32,
) -> Step<Points>
    ensures { result ≡ shift_legs start last target lift progress }
{
    let now = at_once(lift.aggressive_leg_lift, progress);
    let swing = swing(now, progress);
    let (height_lrl, height_rlr) = heights(lift);
    let lrl = Stage {
        progress,
        above: raised(now, swing, height_lrl),
    };
    let rlr = Stage {
        progress,
        above: raised(now, swing, height_rlr),
    };
    moves::unchecked::together(HexapodTypes {
        left_front: leg_at(start.left_front, last.left_front, target.left_front, lrl),
        left_middle: leg_at(start.left_middle, last.left_middle, target.left_middle, rlr),
        left_rear: leg_at(start.left_rear, last.left_rear, target.left_rear, lrl),
        right_front: leg_at(start.right_front, last.right_front, target.right_front, rlr),
        right_middle: leg_at(
            start.right_middle,
            last.right_middle,
            target.right_middle,
            lrl,
        ),
        right_rear: leg_at(start.right_rear, last.right_rear, target.right_rear, rlr),
    })
}

// Whether a foot is lifted after a step. One of the lifted tripod that moved is, unless it came to its target; any other keeps its mark.
#[tactic(auto, unfolding(crate::specs::Marks::mark_after))]
fn mark_after(in_tripod: bool, had: bool, last: Point, target: Point, new: Point) -> bool
    ensures { result ≡ mark_after in_tripod had last target new }
{
    if in_tripod && !moves::unchecked::is_same(last, target) {
        !moves::unchecked::is_same(new, target)
    } else {
        had
    }
}

// A foot after a step.
fn foot_after(in_tripod: bool, last: Foot, target: Point, new: Point) -> Foot
    ensures { result ≡ record { point = new; lifted = mark_after in_tripod last.lifted last.point target new } }
{
    let lifted = mark_after(in_tripod, last.lifted, last.point, target, new);
    legs::unchecked::foot_at(new, lifted)
}

// Six feet after a step that brought them to these points.
// Kept: the six calls, each of which takes of four sixes, as in shift_legs.
#[tactic(auto, unfolding(crate::specs::Marks::stepped))]
fn stepped(tripod: Tripod, last: Feet, target: Points, new: Points) -> Feet
    ensures { result ≡ stepped tripod last target new }
{
    let lrl = commands::unchecked::is_lrl(tripod);
    let rlr = !lrl;
    Feet {
        left_front: foot_after(lrl, last.left_front, target.left_front, new.left_front),
        left_middle: foot_after(rlr, last.left_middle, target.left_middle, new.left_middle),
        left_rear: foot_after(lrl, last.left_rear, target.left_rear, new.left_rear),
        right_front: foot_after(rlr, last.right_front, target.right_front, new.right_front),
        right_middle: foot_after(
            lrl,
            last.right_middle,
            target.right_middle,
            new.right_middle,
        ),
        right_rear: foot_after(rlr, last.right_rear, target.right_rear, new.right_rear),
    }
}

/// The course of three sets of feet.
pub fn course_of(start: Feet, last: Feet, target: Feet) -> Course
    ensures { result ≡ course_of start last target }
{
    Course {
        start: legs::unchecked::points_of(start),
        last,
        target: legs::unchecked::points_of(target),
    }
}

// How far a step by distance is. The source has none where nothing moves sideways.
#[tactic(auto, using(crate::proofs::Bits::constants), unfolding(crate::specs::How::by_distance))]
fn by_distance(course: Course, max_move: f32) -> Option<f32>
    ensures { result ≡ by_distance course max_move }
{
    let full = moves::unchecked::max_horizontal_distance(course.start, course.target);
    if full == 0.0 {
        return None;
    }
    let last = legs::unchecked::points_of(course.last);
    let gone = moves::unchecked::max_horizontal_distance(last, course.start);
    Some(step_progress(gone, max_move, full))
}

// A step by time, at this progress. The source has none where nothing moves sideways.
#[tactic(auto, using(crate::proofs::Bits::constants), unfolding(crate::specs::How::sideways))]
fn sideways(course: Course, progress: f32) -> Option<f32>
    ensures { result ≡ sideways course progress }
{
    let full = moves::unchecked::max_horizontal_distance(course.start, course.target);
    if full <= 0.0 { None } else { Some(progress) }
}

// How far a step is by its pace. At even pace it ends only where every foot is at its target, whatever lies sideways.
fn way_of(course: Course, pace: Pace) -> Option<f32>
    ensures { result ≡ way_of course pace }
{
    match pace {
        Pace::Distance(max_move) => by_distance(course, max_move),
        Pace::Timed(progress) => sideways(course, progress),
        Pace::Even(progress) => Some(progress),
    }
}

// The feet of a step, where one moved.
fn reached(course: Course, lift: Lift, step: Step<Points>) -> Option<Feet>
    ensures { result ≡ reached course lift step }
{
    match step {
        Step::Moved(points) => Some(stepped(lift.tripod, course.last, course.target, points)),
        Step::Arrived(_) => None,
    }
}

// The feet of a step that is so far on its way, where it leads anywhere and a foot moved.
fn on_its_way(course: Course, lift: Lift, way: Option<f32>) -> Option<Feet>
    ensures { result ≡ on_its_way course lift way }
{
    let progress = way?;
    let last = legs::unchecked::points_of(course.last);
    reached(
        course,
        lift,
        shift_legs(course.start, last, course.target, lift, progress),
    )
}

// Whether what a pace was given is in the table, and whether it is finite.
fn pace_permitted(pace: Pace) -> bool
    ensures { result ≡ pace_permitted pace }
{
    match pace {
        Pace::Distance(max_move) => door::is_permitted(numbers::limits::max_move(), max_move),
        Pace::Timed(_) | Pace::Even(_) => true,
    }
}

fn pace_finite(pace: Pace) -> bool
    ensures { result ≡ pace_finite pace }
{
    match pace {
        Pace::Distance(max_move) => door::is_finite(max_move),
        Pace::Timed(_) | Pace::Even(_) => true,
    }
}

// Whether all floats of a step are in the table, and whether they are finite.
fn permitted_paced(course: Course, lift: Lift, pace: Pace) -> bool
    ensures { result ≡ permitted_paced course lift pace }
{
    let limit = numbers::limits::direction();
    course_permitted(course)
        & pace_permitted(pace)
        & door::is_permitted(limit, lift.step_height)
        & door::is_permitted(limit, lift.grounded_leg_descent)
}

fn finite_paced(course: Course, lift: Lift, pace: Pace) -> bool
    ensures { result ≡ finite_paced course lift pace }
{
    course_finite(course)
        & pace_finite(pace)
        & door::is_finite(lift.step_height)
        & door::is_finite(lift.grounded_leg_descent)
}

// Refuses what the door does not let through, by the lowest number that applies. Whether its times are in the table is known already.
#[tactic(auto, using(crate::proofs::OnePass::turned_away))]
pub(crate) fn admit(course: Course, lift: Lift, pace: Pace, timely: bool) -> Result<(), Refusal>
    ensures { result ≡ admission course lift pace timely }
{
    if !permitted_paced(course, lift, pace) {
        Err(door::outside(finite_paced(course, lift, pace)))
    } else if timely {
        Ok(())
    } else {
        Err(Refusal::Time)
    }
}

/// One step more, of any of the three iterators, its door included. One function for all three stays apart from its callers, which are then
/// small, and a caller that does not use the state after pays nothing for it.
#[tactic(auto, unfolding(crate::specs::How::step_made))]
pub fn step_made(
    course: Course,
    lift: Lift,
    pace: Pace,
    timely: bool,
) -> Result<Option<Feet>, Refusal>
    ensures { result ≡ step_made course lift pace timely }
{
    admit(course, lift, pace, timely)?;
    Ok(on_its_way(course, lift, way_of(course, pace)))
}

// The pace of a step by time, even or the source's.
fn pace_of(even: bool, elapsed: Time, period: Time) -> Pace
    ensures { result ≡ pace_of even elapsed period }
{
    if even {
        Pace::Even(even_progress(elapsed, period))
    } else {
        Pace::Timed(timed_progress(elapsed, period))
    }
}

/// The step of a course by time, at even pace or as the source paces it, for one who keeps no state of it.
pub fn paced_made(
    even: bool,
    course: Course,
    period: Time,
    lift: Lift,
    elapsed: Time,
) -> Result<Option<Feet>, Refusal>
    ensures { result ≡ paced_made even course period lift elapsed }
{
    step_made(
        course,
        lift,
        pace_of(even, elapsed, period),
        is_timely(elapsed, period),
    )
}

/// The same at even pace.
pub fn even_made(
    course: Course,
    period: Time,
    lift: Lift,
    elapsed: Time,
) -> Result<Option<Feet>, Refusal>
    ensures { result ≡ even_made course period lift elapsed }
{
    paced_made(true, course, period, lift, elapsed)
}

/// Whether every coordinate of start, last and target is finite.
pub fn course_finite(course: Course) -> bool
    ensures { result ≡ finite_along course }
{
    legs::unchecked::points_finite(course.start)
        & legs::unchecked::feet_finite(course.last)
        & legs::unchecked::points_finite(course.target)
}

/// Whether every coordinate of start, last and target is in the table.
pub fn course_permitted(course: Course) -> bool
    ensures { result ≡ permitted_along course }
{
    let limit = numbers::limits::foot_limit();
    legs::unchecked::points_permitted(limit, course.start)
        & legs::unchecked::feet_permitted(limit, course.last)
        & legs::unchecked::points_permitted(limit, course.target)
}
