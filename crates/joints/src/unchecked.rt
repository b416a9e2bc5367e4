// The solvers behind the door, total on every value, for the rooms above. The order of the float operations is the source's.
ghost use Rattle.std.specs.Prelude.{◌≡◌, ◌||◌, ◌∷◌, []};
ghost use Rattle.numbers.specs.Refusals.{number_or_0};
ghost use Rattle.legs.specs.LegNumbers.{leg_number};
ghost use Rattle.joints.specs.Answers.{told, told_test, nothing, first_leg};
ghost use Rattle.joints.specs.Inverse.{relative_vector, get_alpha_angle, corrected, past_positive, past_negative, past_refusal, legs_told};
ghost use Rattle.joints.specs.Strict.{farthest, nearest, distance_refusal, strict_legs_told};
ghost use Rattle.joints.specs.How.{distances, heading, headings, solved_angles, all_solved, IsTestOf, past_refusals, reach_refusals};
ghost use Rattle.joints.specs.How.{bends_of, all_bends, Stands};
ghost use Rattle.joints.specs.Forward.{from_motor, standing_points};

use crate::SolverRefusal;
use crate::configuration::{Body, Configuration, LegConfiguration};
use legs::{Feet, HexapodTypes, Joints, Leg, LegAngles, Point, Points};
use numbers::Refusal;
use sines::unchecked::Turn;

// Rust's `to_radians` of 90 and 150 degrees: 3fc90fdb and 40278d36.
const NINETY: f32 = 1.5707964;

const ONE_FIFTY: f32 = 2.6179938;

/// How far a foot is from the end of its coxa: sideways, and straight. Metres.
#[derive(Clone, Copy, Debug, PartialEq)]
pub struct Distances {
    pub horizontal: f32,
    pub distance: f32,
}

/// How a leg sets out: from its coxa to the target, its coxa's angle in radians, and how far the foot is.
#[derive(Clone, Copy, Debug, PartialEq)]
pub struct Heading {
    pub relative_vector: Point,
    pub target_angle: f32,
    pub distances: Distances,
}

/// From the coxa's place to the target.
#[tactic(auto, unfolding(legs::specs::Vectors::minus))]
pub fn relative_vector(target: Point, leg: LegConfiguration) -> Point
    ensures { result ≡ relative_vector target leg }
{
    Point {
        x: target.x - leg.position.x,
        y: target.y - leg.position.y,
        z: target.z - leg.position.z,
    }
}

/// How far the foot at v is from the end of a coxa of this length.
#[tactic(auto, unfolding(crate::specs::Inverse::horizontal_distance, crate::specs::Inverse::distance))]
pub fn distances_of(v: Point, coxa_length: f32) -> Distances
    ensures { result ≡ distances v coxa_length }
{
    let horizontal = roots::unchecked::square_root(v.x * v.x + v.y * v.y) - coxa_length;
    let distance = roots::unchecked::square_root(horizontal * horizontal + v.z * v.z);
    Distances {
        horizontal,
        distance,
    }
}

/// The angle across from a, in a triangle with sides a, b, c. A quotient out of reach is cut to -1 or 1, and a NaN becomes 1.
#[tactic(auto, unfolding(crate::specs::Inverse::quotient, crate::specs::Inverse::cut, crate::specs::Inverse::get_alpha_angle))]
pub fn get_alpha_angle(a: f32, b: f32, c: f32) -> f32
    ensures { result ≡ get_alpha_angle a b c }
{
    let upper = b * b + c * c - a * a;
    let bottom = 2.0 * b * c;
    let quotient = upper / bottom;
    arcs::unchecked::arc_cosine(numbers::unchecked::max(
        -1.0,
        numbers::unchecked::min(1.0, quotient),
    ))
}

/// What a motor is told, for an angle in the leg.
#[tactic(auto, unfolding(crate::specs::Inverse::corrected))]
pub fn corrected(correction: f32, offset: f32, angle: f32) -> f32
    ensures { result ≡ corrected correction offset angle }
{
    numbers::unchecked::absolute(correction + offset + angle)
}

/// How one leg sets out.
#[tactic(auto, unfolding(crate::specs::Inverse::coxa_angle, crate::specs::How::heading))]
pub fn set_out(target: Point, body: Body, leg: LegConfiguration) -> Heading
    ensures { result ≡ heading target body leg }
{
    let v = relative_vector(target, leg);
    let target_angle = arcs::unchecked::atan2(v.y, v.x) + leg.angle_offset;
    let distances = distances_of(v, body.coxa_length);
    Heading {
        relative_vector: v,
        target_angle,
        distances,
    }
}

/// How six legs set out, by their feet's points: all before one is solved, so that their roots are taken side by side.
// Kept: written out for each leg, here and in `all_solved`. By `zip_with` in both a leg goes through memory: a solved pose takes 1.065 of
// the instructions, and a refused one 1.054.
#[tactic(auto, unfolding(crate::specs::How::headings))]
pub fn all_set_out(feet: Feet, config: Configuration) -> HexapodTypes<Heading>
    ensures { result ≡ headings feet config }
{
    let body = config.body;
    HexapodTypes {
        left_front: set_out(feet.left_front.point, body, config.legs.left_front),
        left_middle: set_out(feet.left_middle.point, body, config.legs.left_middle),
        left_rear: set_out(feet.left_rear.point, body, config.legs.left_rear),
        right_front: set_out(feet.right_front.point, body, config.legs.right_front),
        right_middle: set_out(feet.right_middle.point, body, config.legs.right_middle),
        right_rear: set_out(feet.right_rear.point, body, config.legs.right_rear),
    }
}

/// The three angles of a leg that has set out.
#[tactic(auto, unfolding(crate::specs::Inverse::motor_angles, crate::specs::How::solved_angles, crate::specs::Degrees::one_fifty))]
pub fn calculate_ik_for_leg(heading: Heading, body: Body, leg: LegConfiguration) -> LegAngles
    ensures { result ≡ solved_angles heading body leg }
{
    let distance = heading.distances.distance;
    let angle_by_tibia = get_alpha_angle(distance, body.femur_length, body.tibia_length);
    let angle_by_femur = get_alpha_angle(body.tibia_length, body.femur_length, distance);
    let ground_target_angle = arcs::unchecked::atan2(
        heading.distances.horizontal,
        -heading.relative_vector.z,
    );
    let femur_angle = angle_by_femur + ground_target_angle;
    LegAngles {
        coxa: ONE_FIFTY + heading.target_angle,
        femur: corrected(leg.femur_correction, body.femur_offset, femur_angle),
        tibia: corrected(leg.tibia_correction, body.tibia_offset, angle_by_tibia),
    }
}

// The angles of six legs that have set out.
// Both solvers take them from here. Put into each, that costs nothing; apart, the whole configuration would go through memory.
// Kept: written out for each leg, as in `all_set_out`.
#[inline(always)]
#[tactic(auto, unfolding(crate::specs::How::all_solved))]
fn all_solved(six: HexapodTypes<Heading>, config: Configuration) -> Joints
    ensures { result ≡ all_solved six config }
{
    let body = config.body;
    Joints {
        left_front: calculate_ik_for_leg(six.left_front, body, config.legs.left_front),
        left_middle: calculate_ik_for_leg(six.left_middle, body, config.legs.left_middle),
        left_rear: calculate_ik_for_leg(six.left_rear, body, config.legs.left_rear),
        right_front: calculate_ik_for_leg(six.right_front, body, config.legs.right_front),
        right_middle: calculate_ik_for_leg(six.right_middle, body, config.legs.right_middle),
        right_rear: calculate_ik_for_leg(six.right_rear, body, config.legs.right_rear),
    }
}

// Whether a coxa at this angle is past its limit, on either side.
fn is_past(angle: f32) -> bool
    ensures { result ≡ (past_positive angle || past_negative angle) }
{
    (angle >= NINETY) | (angle <= -NINETY)
}

// Nothing where a coxa at this angle is short of its limit; else the refusal of the side that it is on.
#[tactic(auto, using(crate::proofs::OneLeg::one_angle), unfolding(crate::specs::Degrees::ninety))]
fn admit_angle(angle: f32) -> Result<(), Refusal>
    ensures { number_or_0 result ≡ past_refusal angle }
{
    if !is_past(angle) {
        Ok(())
    } else if angle >= NINETY {
        Err(Refusal::PastPositive)
    } else {
        Err(Refusal::PastNegative)
    }
}

/// How far from its coxa's end a foot may be: femur and tibia in one line.
#[tactic(auto, unfolding(crate::specs::Strict::farthest))]
pub fn farthest(body: Body) -> f32
    ensures { result ≡ farthest body }
{
    body.femur_length + body.tibia_length
}

/// How near to it: femur and tibia folded.
#[tactic(auto, unfolding(crate::specs::Strict::nearest))]
pub fn nearest(body: Body) -> f32
    ensures { result ≡ nearest body }
{
    numbers::unchecked::absolute(body.femur_length - body.tibia_length)
}

// Nothing where a foot at this distance is within reach.
#[tactic(auto, unfolding(crate::specs::Strict::distance_refusal))]
fn admit_distance(distance: f32, farthest: f32, nearest: f32) -> Result<(), Refusal>
    ensures { number_or_0 result ≡ distance_refusal distance farthest nearest }
{
    if farthest < distance {
        Err(Refusal::TooFar)
    } else if distance < nearest {
        Err(Refusal::TooNear)
    } else {
        Ok(())
    }
}

// What a test says of a leg, with the leg's name.
#[tactic(auto, using(numbers::proofs::Numbers::has_a_number))]
fn of_leg(leg: Leg, test: Result<(), Refusal>) -> Result<(), SolverRefusal>
    ensures { told_test result ≡ first_leg (number_or_0 test ∷ []) (leg_number leg) nothing }
{
    test.map_err(|refusal| SolverRefusal {
        refusal,
        leg: Some(leg),
    })
}

// Nothing where all six legs pass the test; else the first in row order that does not, with its refusal.
fn all_pass<F: Fn(Heading) -> Result<(), Refusal>>(
    six: HexapodTypes<Heading>,
    test: F,
) -> Result<(), SolverRefusal>
    requires { F.IsAlwaysCallable test }
    ensures { IsTestOf (F.post test) six result }
{
    of_leg(Leg::LeftFront, test(six.left_front))?;
    of_leg(Leg::RightFront, test(six.right_front))?;
    of_leg(Leg::LeftMiddle, test(six.left_middle))?;
    of_leg(Leg::RightMiddle, test(six.right_middle))?;
    of_leg(Leg::LeftRear, test(six.left_rear))?;
    of_leg(Leg::RightRear, test(six.right_rear))
}

// The first leg that is past its limit, of six that have set out.
fn admit_angles(six: HexapodTypes<Heading>) -> Result<(), SolverRefusal>
    ensures { told_test result ≡ first_leg (past_refusals six) 0 nothing }
{
    all_pass(six, |heading| admit_angle(heading.target_angle))
}

// The first leg whose foot is out of reach, of six that have set out.
fn admit_distances(six: HexapodTypes<Heading>, body: Body) -> Result<(), SolverRefusal>
    ensures { told_test result ≡ first_leg (reach_refusals six body) 0 nothing }
{
    let far = farthest(body);
    let near = nearest(body);
    all_pass(
        six,
        |heading| admit_distance(heading.distances.distance, far, near),
    )
}

/// Six legs, in the source's order; the first that is past its limit answers for all.
#[tactic(auto, using(crate::proofs::LegsTold::old))]
pub fn calculate_ik(feet: Feet, config: Configuration) -> Result<Joints, SolverRefusal>
    ensures { told result ≡ legs_told feet config }
{
    let six = all_set_out(feet, config);
    admit_angles(six)?;
    Ok(all_solved(six, config))
}

/// The same, strict: where no leg is past its limit, the first that is out of reach answers for all.
#[tactic(auto, using(crate::proofs::LegsTold::strict))]
pub fn calculate_ik_strict(feet: Feet, config: Configuration) -> Result<Joints, SolverRefusal>
    ensures { told result ≡ strict_legs_told feet config }
{
    let six = all_set_out(feet, config);
    admit_angles(six)?;
    admit_distances(six, config.body)?;
    Ok(all_solved(six, config))
}

/// The angle in the leg, for what its motor says.
#[tactic(auto, unfolding(crate::specs::Forward::from_motor))]
pub fn from_motor(motor: f32, correction: f32, offset: f32) -> f32
    ensures { result ≡ from_motor motor correction offset }
{
    numbers::unchecked::absolute(motor - numbers::unchecked::absolute(correction + offset))
}

/// How far a leg's three parts are turned: the coxa from straight ahead, the femur and the tibia in the leg's own plane. Radians.
#[derive(Clone, Copy, Debug, PartialEq)]
pub struct Bends {
    pub base: f32,
    pub femur: f32,
    pub tibia: f32,
}

// The bends of a leg at these motor angles.
fn bends_of(motors: LegAngles, body: Body, leg: LegConfiguration) -> Bends
    ensures { result ≡ bends_of motors body leg }
{
    let femur_angle = from_motor(motors.femur, leg.femur_correction, body.femur_offset);
    let tibia_angle = from_motor(motors.tibia, leg.tibia_correction, body.tibia_offset);
    let femur_turn = femur_angle - NINETY;
    Bends {
        base: motors.coxa - ONE_FIFTY - leg.angle_offset,
        femur: femur_turn,
        tibia: tibia_angle - (NINETY - femur_turn),
    }
}

// The bends of six legs, three each, leg by leg.
#[tactic(auto, unfolding(crate::specs::How::all_bends))]
fn all_bends(joints: Joints, config: Configuration) -> [f32; 18]
    ensures { result ≡ all_bends joints config }
{
    let body = config.body;
    let six = joints.zip_with(config.legs, |motors, leg| bends_of(motors, body, leg));
    let a = six.left_front;
    let b = six.left_middle;
    let c = six.left_rear;
    let d = six.right_front;
    let e = six.right_middle;
    let f = six.right_rear;
    [
        a.base, a.femur, a.tibia, b.base, b.femur, b.tibia, c.base, c.femur, c.tibia, d.base,
        d.femur, d.tibia, e.base, e.femur, e.tibia, f.base, f.femur, f.tibia,
    ]
}

// Where one foot stands, by the sines and cosines of its leg's bends.
#[tactic(auto, unfolding(legs::specs::Vectors::plus, crate::specs::Forward::standing))]
fn standing(base: Turn, femur: Turn, tibia: Turn, body: Body, leg: LegConfiguration) -> Point
    ensures { Stands base femur tibia body leg result }
{
    let femur_x = femur.sine * body.femur_length;
    let femur_y = femur.cosine * body.femur_length;
    let tibia_x = tibia.sine * body.tibia_length;
    let tibia_y = tibia.cosine * body.tibia_length;
    Point {
        x: leg.position.x
            + base.cosine * body.coxa_length
            + base.cosine * femur_y
            + base.cosine * tibia_x,
        y: leg.position.y
            + base.sine * body.coxa_length
            + base.sine * femur_y
            + base.sine * tibia_x,
        z: leg.position.z + 0.0 * body.coxa_length + femur_x + -tibia_y,
    }
}

/// Six points, leg by leg: all sines and cosines before the first point, so that they are taken side by side.
// Kept: the eighteen bends are one row, and each leg's three turns are read from it by their places. Six sines and cosines that are taken
// leg by leg are slower, since no two legs' chains overlap then.
pub fn calculate_fk(joints: Joints, config: Configuration) -> Points
    ensures { result ≡ standing_points joints config }
{
    let body = config.body;
    let t = sines::eighteen::turns(all_bends(joints, config));
    Points {
        left_front: standing(t[0], t[1], t[2], body, config.legs.left_front),
        left_middle: standing(t[3], t[4], t[5], body, config.legs.left_middle),
        left_rear: standing(t[6], t[7], t[8], body, config.legs.left_rear),
        right_front: standing(t[9], t[10], t[11], body, config.legs.right_front),
        right_middle: standing(t[12], t[13], t[14], body, config.legs.right_middle),
        right_rear: standing(t[15], t[16], t[17], body, config.legs.right_rear),
    }
}
