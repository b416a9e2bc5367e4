// What a line asks: a pose.
use fields::Fields;
use hopper::foot_moves::OptionalLegPositions;
use hopper::hexapod::{Foot, HexapodTypes, Point};

// A leg's foot, or null.
fn foot(point: Option<Point>, lifted: bool) -> Option<Foot> {
    match point {
        Some(point) => Some(Foot { point, lifted }),
        None => None,
    }
}

/// Six points or `-` in row order, and the marks of all six, of which null has any.
pub fn pose(line: &mut Fields) -> Option<OptionalLegPositions> {
    let points = HexapodTypes::from_legs([
        line.known_point()?,
        line.known_point()?,
        line.known_point()?,
        line.known_point()?,
        line.known_point()?,
        line.known_point()?,
    ]);
    Some(points.zip_with(line.marks()?, foot))
}
