// What a line asks: tripods, times, commands, steps and configurations, read from its fields.
use commands::{MoveCommand, Time, Tripod};
use fields::Fields;
use joints::configuration::{Body, Configuration, LegConfiguration};
use legs::{HexapodTypes, Joints, LegAngles};
use steps::{Lift, PacedStepIterator, StepIterator};

/// The lifted tripod: 0 is LRL.
pub fn tripod(line: &mut Fields) -> Option<Tripod> {
    if line.flag()? {
        Some(Tripod::RLR)
    } else {
        Some(Tripod::LRL)
    }
}

/// Seconds and nanoseconds.
pub fn time(line: &mut Fields) -> Option<Time> {
    Some(Time {
        seconds: line.long()?,
        nanoseconds: line.number()?,
    })
}

/// Direction x, direction y, rotation, step time, height, aggressive.
pub fn command(line: &mut Fields) -> Option<MoveCommand> {
    Some(MoveCommand {
        direction_x: line.float()?,
        direction_y: line.float()?,
        rotation: line.float()?,
        step_time: time(line)?,
        step_height: line.float()?,
        aggressive_leg_lift: line.flag()?,
    })
}

/// Height, descent, tripod, aggressive.
pub fn lift(line: &mut Fields) -> Option<Lift> {
    Some(Lift {
        step_height: line.float()?,
        grounded_leg_descent: line.float()?,
        tripod: tripod(line)?,
        aggressive_leg_lift: line.flag()?,
    })
}

// What the six legs share: five floats.
fn body(line: &mut Fields) -> Option<Body> {
    Some(Body {
        coxa_length: line.float()?,
        femur_length: line.float()?,
        tibia_length: line.float()?,
        femur_offset: line.float()?,
        tibia_offset: line.float()?,
    })
}

// A leg of the configuration: its coxa's place and three floats.
fn leg(line: &mut Fields) -> Option<LegConfiguration> {
    Some(LegConfiguration {
        position: line.point()?,
        angle_offset: line.float()?,
        femur_correction: line.float()?,
        tibia_correction: line.float()?,
    })
}

/// 41 floats: the body's five, and six a leg in row order.
pub fn configuration(line: &mut Fields) -> Option<Configuration> {
    Some(Configuration {
        body: body(line)?,
        legs: HexapodTypes::from_legs([
            leg(line)?,
            leg(line)?,
            leg(line)?,
            leg(line)?,
            leg(line)?,
            leg(line)?,
        ]),
    })
}

/// Three floats a leg: coxa, femur, tibia.
pub fn joints(line: &mut Fields) -> Option<Joints> {
    Some(
        line.points()?.map(|p| LegAngles {
            coxa: p.x,
            femur: p.y,
            tibia: p.z,
        }),
    )
}

/// A step by distance: start, last, target, max move, height, tripod, aggressive.
pub fn step(line: &mut Fields) -> Option<StepIterator> {
    Some(StepIterator {
        start: line.feet()?,
        last: line.feet()?,
        target: line.feet()?,
        max_move: line.float()?,
        step_height: line.float()?,
        tripod: tripod(line)?,
        aggressive_leg_lift: line.flag()?,
    })
}

/// A step by time, and the time since its start: start, last, target, height, descent, tripod, aggressive, elapsed, period.
pub fn paced<const EVEN: bool>(line: &mut Fields) -> Option<(PacedStepIterator<EVEN>, Time)> {
    let start = line.feet()?;
    let last = line.feet()?;
    let target = line.feet()?;
    let lift = lift(line)?;
    let elapsed = time(line)?;
    let state = PacedStepIterator {
        start,
        last,
        target,
        period: time(line)?,
        lift,
    };
    Some((state, elapsed))
}
