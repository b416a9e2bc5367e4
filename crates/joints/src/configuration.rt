// How the crawler is built: 41 floats, and whether they and the motor angles are finite and permitted.
ghost use Rattle.std.specs.Prelude.{◌≡◌};
ghost use Rattle.joints.specs.Configured.{finite_body, permitted_body, finite_leg, permitted_leg, finite_angles, permitted_angles};
ghost use Rattle.joints.specs.Configured.{finite_configuration, permitted_configuration, finite_joints, permitted_joints};

use legs::{HexapodTypes, Joints, LegAngles, Point};
use numbers::{door, limits};

/// What all legs share: the lengths of a leg's three parts in metres, and how far its femur and tibia motors are turned, in radians.
#[derive(Clone, Copy, Debug, PartialEq)]
pub struct Body {
    pub coxa_length: f32,
    pub femur_length: f32,
    pub tibia_length: f32,
    pub femur_offset: f32,
    pub tibia_offset: f32,
}

/// What is a leg's own: where its coxa sits, how that is turned, and what its femur and tibia motors are off by.
#[derive(Clone, Copy, Debug, PartialEq)]
pub struct LegConfiguration {
    pub position: Point,
    pub angle_offset: f32,
    pub femur_correction: f32,
    pub tibia_correction: f32,
}

/// The body and its six legs.
#[derive(Clone, Copy, Debug, PartialEq)]
pub struct Configuration {
    pub body: Body,
    pub legs: HexapodTypes<LegConfiguration>,
}

/// Whether the body's five floats are finite.
#[tactic(auto, unfolding(crate::specs::Configured::finite_body))]
pub fn body_finite(b: Body) -> bool
    ensures { result ≡ finite_body b }
{
    door::is_finite(b.coxa_length)
        & door::is_finite(b.femur_length)
        & door::is_finite(b.tibia_length)
        & door::is_finite(b.femur_offset)
        & door::is_finite(b.tibia_offset)
}

/// Whether the body's five floats are in the table.
#[tactic(auto, unfolding(crate::specs::Configured::permitted_body))]
pub fn body_permitted(b: Body) -> bool
    ensures { result ≡ permitted_body b }
{
    let length = limits::leg_length();
    let offset = limits::offset();
    door::is_permitted(length, b.coxa_length)
        & door::is_permitted(length, b.femur_length)
        & door::is_permitted(length, b.tibia_length)
        & door::is_permitted(offset, b.femur_offset)
        & door::is_permitted(offset, b.tibia_offset)
}

/// Whether a leg's own six floats are finite.
#[tactic(auto, unfolding(crate::specs::Configured::finite_leg))]
pub fn leg_finite(l: LegConfiguration) -> bool
    ensures { result ≡ finite_leg l }
{
    legs::unchecked::point_finite(l.position)
        & door::is_finite(l.angle_offset)
        & door::is_finite(l.femur_correction)
        & door::is_finite(l.tibia_correction)
}

/// Whether a leg's own six floats are in the table.
#[tactic(auto, unfolding(crate::specs::Configured::permitted_leg))]
pub fn leg_permitted(l: LegConfiguration) -> bool
    ensures { result ≡ permitted_leg l }
{
    let correction = limits::correction();
    legs::unchecked::point_permitted(limits::foot_limit(), l.position)
        & door::is_permitted(limits::rotation(), l.angle_offset)
        & door::is_permitted(correction, l.femur_correction)
        & door::is_permitted(correction, l.tibia_correction)
}

/// Whether all 41 floats are finite.
#[tactic(auto, unfolding(crate::specs::Configured::finite_configuration))]
pub fn finite(c: Configuration) -> bool
    ensures { result ≡ finite_configuration c }
{
    c.legs.map(|leg| leg_finite(leg)).all() & body_finite(c.body)
}

/// Whether all 41 floats are in the table.
#[tactic(auto, unfolding(crate::specs::Configured::permitted_configuration))]
pub fn permitted(c: Configuration) -> bool
    ensures { result ≡ permitted_configuration c }
{
    c.legs.map(|leg| leg_permitted(leg)).all() & body_permitted(c.body)
}

/// Whether a leg's three motor angles are finite.
#[tactic(auto, unfolding(crate::specs::Configured::finite_angles))]
pub fn angles_finite(a: LegAngles) -> bool
    ensures { result ≡ finite_angles a }
{
    door::is_finite(a.coxa) & door::is_finite(a.femur) & door::is_finite(a.tibia)
}

/// Whether a leg's three motor angles are in the table.
#[tactic(auto, unfolding(crate::specs::Configured::permitted_angles))]
pub fn angles_permitted(a: LegAngles) -> bool
    ensures { result ≡ permitted_angles a }
{
    let limit = limits::motor_angle();
    door::is_permitted(limit, a.coxa)
        & door::is_permitted(limit, a.femur)
        & door::is_permitted(limit, a.tibia)
}

/// Whether all eighteen motor angles are finite.
pub fn joints_finite(j: Joints) -> bool
    ensures { result ≡ finite_joints j }
{
    j.map(|angles| angles_finite(angles)).all()
}

/// Whether all eighteen motor angles are in the table.
pub fn joints_permitted(j: Joints) -> bool
    ensures { result ≡ permitted_joints j }
{
    j.map(|angles| angles_permitted(angles)).all()
}
