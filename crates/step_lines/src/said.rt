// What is answered: tripods, times, commands, steps and joints, as fields of an answer.
use commands::{MoveCommand, Time, Tripod};
use fields::Answer;
use joints::SolverRefusal;
use legs::{Feet, Joints};
use numbers::Refusal;
use steps::{Lift, PacedStepIterator, StepIterator};

/// A bit.
pub fn flag(to: &mut Answer, b: bool) {
    to.decimal(if b { 1 } else { 0 });
}

/// The lifted tripod: 0 is LRL.
pub fn tripod(to: &mut Answer, t: Tripod) {
    flag(to, t == Tripod::RLR);
}

/// Seconds, which fit where a time is permitted, and nanoseconds.
pub fn time(to: &mut Answer, t: Time) {
    to.bits((t.seconds % 0x1_0000_0000) as u32);
    to.bits(t.nanoseconds);
}

/// Direction x, direction y, rotation, step time, height, aggressive.
pub fn command(to: &mut Answer, c: MoveCommand) {
    to.float(c.direction_x);
    to.float(c.direction_y);
    to.float(c.rotation);
    time(to, c.step_time);
    to.float(c.step_height);
    flag(to, c.aggressive_leg_lift);
}

// Height, descent, tripod, aggressive.
fn lift(to: &mut Answer, l: Lift) {
    to.float(l.step_height);
    to.float(l.grounded_leg_descent);
    tripod(to, l.tripod);
    flag(to, l.aggressive_leg_lift);
}

// Six times coxa, femur, tibia in row order.
fn joints(to: &mut Answer, joints: Joints) {
    for leg in joints.as_legs() {
        to.float(leg.coxa);
        to.float(leg.femur);
        to.float(leg.tibia);
    }
}

// Start, last, target.
fn course(to: &mut Answer, start: Feet, last: Feet, target: Feet) {
    to.feet(start);
    to.feet(last);
    to.feet(target);
}

/// Start, last, target, max move, height, tripod, aggressive.
pub fn step(to: &mut Answer, s: StepIterator) {
    course(to, s.start, s.last, s.target);
    to.float(s.max_move);
    to.float(s.step_height);
    tripod(to, s.tripod);
    flag(to, s.aggressive_leg_lift);
}

/// Start, last, target, lift, period.
pub fn paced_step<const EVEN: bool>(to: &mut Answer, s: PacedStepIterator<EVEN>) {
    course(to, s.start, s.last, s.target);
    lift(to, s.lift);
    time(to, s.period);
}

/// `S` and the new feet, or `N` and the last ones, where there is no step.
pub fn next<S: Copy>(to: &mut Answer, next: Result<Option<(Feet, S)>, Refusal>, last: Feet) {
    match next {
        Ok(Some((feet, _))) => {
            to.ok();
            to.text(b"S");
            to.feet(feet);
        }
        Ok(None) => {
            to.ok();
            to.text(b"N");
            to.feet(last);
        }
        Err(refusal) => to.refused(refusal),
    }
}

/// Eighteen joint angles, or the refusal and its leg.
pub fn solved(to: &mut Answer, solved: Result<Joints, SolverRefusal>) {
    match solved {
        Ok(angles) => {
            to.ok();
            joints(to, angles);
        }
        Err(why) => {
            to.refused(why.refusal);
            if let Some(leg) = why.leg {
                to.decimal(leg.number());
            }
        }
    }
}
