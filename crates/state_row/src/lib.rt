// A state in 506 bytes that a host lends, its feet in 72, its configuration in 164, and joints in 72 (request K10), all numbers lowest byte
// first. docs/CONDUCTOR.md has the layout.
#![tactic(auto)]

ghost use Rattle.std.specs.Prelude.{◌≡◌, ◌+◌, ◌≤◌, true, [], ◌∷◌, ◌++◌, length, nat_le};
ghost use Rattle.std.specs.List.{list_all};
ghost use Rattle.std.proofs.lemmas.List.Edits.{sets};
ghost use Rattle.numbers.specs.Told.{mark};
ghost use Rattle.legs.specs.Legs.{finite_feet, joints_of};
ghost use Rattle.legs.specs.Answers.{lifts};
ghost use Rattle.commands.specs.Answers.{tripod_mark, command_values};
ghost use Rattle.commands.specs.Command.{finite_command};
ghost use Rattle.joints.specs.Configured.{finite_leg, finite_body, finite_configuration, finite_angles, finite_joints};
ghost use Rattle.conductor.specs.States.{finite_state};
ghost use Rattle.state_row.specs.Layout.{body_values, leg_values, configuration_values, point_values, floats_bytes, time_bytes};
ghost use Rattle.state_row.specs.Layout.{state_bytes, joint_bytes, leg_of, body_of, configuration_of, flag, tripod_of, command_of};
ghost use Rattle.state_row.specs.Layout.{state_of};
ghost use Rattle.state_row.specs.Layout.{flags, is_state, standing_of};
ghost use Rattle.state_row.specs.How.{points_in, courses_bytes, marks_bytes, last_put, plan_put, command_put};

use commands::{MoveCommand, Time, Tripod};
use conductor::State;
use joints::configuration::{Body, Configuration, LegConfiguration};
use legs::{Feet, HexapodTypes, Joints, LegAngles, Points};

/// How many bytes a state's row has.
pub const STATE_LENGTH: usize = 506;

/// Where the points of the last feet stand in a state's row, those of the target, and those of the relaxed feet; those of the start stand
/// at its head.
pub const LAST: usize = 72;

pub const TARGET: usize = 144;

pub const RELAXED: usize = 216;

/// Where the configuration stands.
pub const CONFIGURATION: usize = 304;

/// Where the marks of the start stand, and those of the last feet, of the target and of the relaxed feet.
pub const START_MARKS: usize = 480;

pub const LAST_MARKS: usize = 486;

pub const TARGET_MARKS: usize = 492;

pub const RELAXED_MARKS: usize = 498;

/// Where the lifted tripod stands.
pub const TRIPOD: usize = 504;

// Where the command stands: its floats, its step time in nanoseconds and seconds, its flag.
const COMMAND: usize = 288;

const NANOSECONDS: usize = 468;

const SECONDS: usize = 472;

const AGGRESSIVE: usize = 505;

// Whether all of these bytes are flags.
fn all_flags(bytes: &[u8]) -> bool
    ensures { result ≡ list_all (λ b. nat_le b 1) bytes.now }
{
    bytes.iter().all(|b| *b <= 1)
}

// Whether 26 bytes from the marks on are.
// Kept: what may not change: `is_state`, `state_at`, `put_state` and the other public functions take a slice of any length, so that each
// contract here states the row's length.
fn flags_good(s: &[u8]) -> bool
    requires { length s.now ≡ 506 }
    ensures { result ≡ flags 26 s.now 480 }
{
    all_flags(&s[START_MARKS..STATE_LENGTH])
}

/// Whether the row has the state's length, and flags where it has marks, the tripod and the command's flag.
#[tactic(auto, unfolding(crate::specs::Layout::is_state))]
pub fn is_state(s: &[u8]) -> bool
    ensures { result ≡ is_state s.now }
{
    s.len() == STATE_LENGTH && flags_good(s)
}

/// The tripod of a byte.
pub fn tripod_of(b: u8) -> Tripod
    ensures { result ≡ tripod_of b }
{
    if b == 1 { Tripod::RLR } else { Tripod::LRL }
}

// What is a leg's own, of 24 bytes.
fn leg_at(s: &[u8], at: usize) -> LegConfiguration
    requires { at + 24 ≤ length s.now }
    ensures { result ≡ leg_of s.now at }
{
    LegConfiguration {
        position: packed::point_at(s, at),
        angle_offset: packed::float_at(s, at + 12),
        femur_correction: packed::float_at(s, at + 16),
        tibia_correction: packed::float_at(s, at + 20),
    }
}

// What all legs share, of 20 bytes.
fn body_at(s: &[u8], at: usize) -> Body
    requires { at + 20 ≤ length s.now }
    ensures { result ≡ body_of s.now at }
{
    Body {
        coxa_length: packed::float_at(s, at),
        femur_length: packed::float_at(s, at + 4),
        tibia_length: packed::float_at(s, at + 8),
        femur_offset: packed::float_at(s, at + 12),
        tibia_offset: packed::float_at(s, at + 16),
    }
}

/// The configuration of 164 bytes.
pub fn configuration_at(s: &[u8], at: usize) -> Configuration
    requires { at + 164 ≤ length s.now }
    ensures { result ≡ configuration_of s.now at }
{
    Configuration {
        body: body_at(s, at),
        legs: HexapodTypes {
            left_front: leg_at(s, at + 20),
            left_middle: leg_at(s, at + 68),
            left_rear: leg_at(s, at + 116),
            right_front: leg_at(s, at + 44),
            right_middle: leg_at(s, at + 92),
            right_rear: leg_at(s, at + 140),
        },
    }
}

// Kept: the new form is no plainer: each leg has a place of its own in the row, whose order is not that of the six's fields, so that it is
// read and stored leg by leg, here and below.
/// The six points of 72 bytes.
pub fn points_in(s: &[u8], at: usize) -> Points
    requires { at + 72 ≤ length s.now }
    ensures { result ≡ points_in s.now at }
{
    Points {
        left_front: packed::point_at(s, at),
        left_middle: packed::point_at(s, at + 24),
        left_rear: packed::point_at(s, at + 48),
        right_front: packed::point_at(s, at + 12),
        right_middle: packed::point_at(s, at + 36),
        right_rear: packed::point_at(s, at + 60),
    }
}

/// The feet of 72 bytes of points, all standing.
pub fn standing_at(s: &[u8]) -> Feet
    requires { length s.now ≡ 72 }
    ensures { result ≡ standing_of s.now }
{
    legs::unchecked::standing(points_in(s, 0))
}

/// The command of a state's row.
pub fn command_at(s: &[u8]) -> MoveCommand
    requires { length s.now ≡ 506 }
    ensures { result ≡ command_of s.now }
{
    MoveCommand {
        direction_x: packed::float_at(s, COMMAND),
        direction_y: packed::float_at(s, COMMAND + 4),
        rotation: packed::float_at(s, COMMAND + 8),
        step_time: Time {
            seconds: packed::long_at(s, SECONDS),
            nanoseconds: packed::word_at(s, NANOSECONDS),
        },
        step_height: packed::float_at(s, COMMAND + 12),
        aggressive_leg_lift: s[AGGRESSIVE] == 1,
    }
}

/// The state of a row.
pub fn state_at(s: &[u8]) -> State
    requires { length s.now ≡ 506 }
    ensures { result ≡ state_of s.now }
{
    State {
        start: packed::feet_in(s, START_MARKS, 0),
        last: packed::feet_in(s, LAST_MARKS, LAST),
        target: packed::feet_in(s, TARGET_MARKS, TARGET),
        relaxed: packed::feet_in(s, RELAXED_MARKS, RELAXED),
        lifted: tripod_of(s[TRIPOD]),
        command: command_at(s),
        configuration: configuration_at(s, CONFIGURATION),
    }
}

// What is a leg's own goes into 24 bytes.
fn put_leg(s: &mut [u8], at: usize, l: LegConfiguration)
    requires { (at + 24 ≤ length s.old) × (finite_leg l ≡ true) }
    ensures { s.new ≡ sets s.old at (floats_bytes (leg_values l)) }
{
    packed::put_point(s, at, l.position);
    packed::put_float(s, at + 12, l.angle_offset);
    packed::put_float(s, at + 16, l.femur_correction);
    packed::put_float(s, at + 20, l.tibia_correction);
}

// What all legs share goes into 20.
fn put_body(s: &mut [u8], at: usize, b: Body)
    requires { (at + 20 ≤ length s.old) × (finite_body b ≡ true) }
    ensures { s.new ≡ sets s.old at (floats_bytes (body_values b)) }
{
    packed::put_float(s, at, b.coxa_length);
    packed::put_float(s, at + 4, b.femur_length);
    packed::put_float(s, at + 8, b.tibia_length);
    packed::put_float(s, at + 12, b.femur_offset);
    packed::put_float(s, at + 16, b.tibia_offset);
}

// A configuration goes into a state's row.
fn put_configuration(s: &mut [u8], c: Configuration)
    requires { (length s.old ≡ 506) × (finite_configuration c ≡ true) }
    ensures { s.new ≡ sets s.old 304 (floats_bytes (configuration_values c)) }
{
    put_body(s, CONFIGURATION, c.body);
    put_leg(s, CONFIGURATION + 20, c.legs.left_front);
    put_leg(s, CONFIGURATION + 44, c.legs.right_front);
    put_leg(s, CONFIGURATION + 68, c.legs.left_middle);
    put_leg(s, CONFIGURATION + 92, c.legs.right_middle);
    put_leg(s, CONFIGURATION + 116, c.legs.left_rear);
    put_leg(s, CONFIGURATION + 140, c.legs.right_rear);
}

// A command's floats.
fn put_command(s: &mut [u8], c: MoveCommand)
    requires { (length s.old ≡ 506) × (finite_command c ≡ true) }
    ensures { s.new ≡ sets s.old 288 (floats_bytes (command_values c)) }
{
    packed::put_float(s, COMMAND, c.direction_x);
    packed::put_float(s, COMMAND + 4, c.direction_y);
    packed::put_float(s, COMMAND + 8, c.rotation);
    packed::put_float(s, COMMAND + 12, c.step_height);
}

// A command's step time.
fn put_time(s: &mut [u8], t: Time)
    requires { length s.old ≡ 506 }
    ensures { s.new ≡ sets s.old 468 (time_bytes t) }
{
    packed::put_word(s, NANOSECONDS, t.nanoseconds);
    packed::put_long(s, SECONDS, t.seconds);
}

// A flag goes into a byte of a row.
fn put_flag(s: &mut [u8], at: usize, b: bool)
    requires { at + 1 ≤ length s.old }
    ensures { s.new ≡ sets s.old at (mark b ∷ []) }
{
    s[at] = u8::from(b);
}

// The points of a state's four sets of feet.
fn put_courses(s: &mut [u8], state: State)
    requires { (length s.old ≡ 506) × (finite_state state ≡ true) }
    ensures { s.new ≡ sets s.old 0 (courses_bytes state) }
{
    packed::put_points(s, 0, state.start);
    packed::put_points(s, LAST, state.last);
    packed::put_points(s, TARGET, state.target);
    packed::put_points(s, RELAXED, state.relaxed);
}

// Their marks.
fn put_all_marks(s: &mut [u8], state: State)
    requires { length s.old ≡ 506 }
    ensures { s.new ≡ sets s.old 480 (marks_bytes state) }
{
    packed::put_marks(s, START_MARKS, state.start);
    packed::put_marks(s, LAST_MARKS, state.last);
    packed::put_marks(s, TARGET_MARKS, state.target);
    packed::put_marks(s, RELAXED_MARKS, state.relaxed);
}

/// A state becomes what a row holds.
pub fn put_state(s: &mut [u8], state: State)
    requires { (length s.old ≡ 506) × (finite_state state ≡ true) }
    ensures { s.new ≡ state_bytes state }
{
    put_courses(s, state);
    put_command(s, state.command);
    put_configuration(s, state.configuration);
    put_time(s, state.command.step_time);
    put_all_marks(s, state);
    put_flag(s, TRIPOD, is_rlr(state.lifted));
    put_flag(s, AGGRESSIVE, state.command.aggressive_leg_lift);
}

/// The last feet of a row become these, and all else stays.
pub fn put_last(s: &mut [u8], feet: Feet)
    requires { (length s.old ≡ 506) × (finite_feet feet ≡ true) }
    ensures { s.new ≡ last_put s.old feet }
{
    packed::put_points(s, LAST, feet);
    packed::put_marks(s, LAST_MARKS, feet);
}

/// Start and target of a row become these, and so does the lifted tripod.
pub fn put_plan(s: &mut [u8], start: Feet, target: Feet, lifted: Tripod)
    requires { (length s.old ≡ 506) × (finite_feet start ≡ true) × (finite_feet target ≡ true) }
    ensures { s.new ≡ plan_put s.old start target lifted }
{
    packed::put_points(s, 0, start);
    packed::put_points(s, TARGET, target);
    packed::put_marks(s, START_MARKS, start);
    packed::put_marks(s, TARGET_MARKS, target);
    put_flag(s, TRIPOD, is_rlr(lifted));
}

/// The command of a row becomes this one, and all else stays.
pub fn put_new_command(s: &mut [u8], command: MoveCommand)
    requires { (length s.old ≡ 506) × (finite_command command ≡ true) }
    ensures { s.new ≡ command_put s.old command }
{
    put_command(s, command);
    put_time(s, command.step_time);
    put_flag(s, AGGRESSIVE, command.aggressive_leg_lift);
}

// Whether the second tripod is lifted.
fn is_rlr(tripod: Tripod) -> bool
    ensures { mark result ≡ tripod_mark tripod }
{
    matches!(tripod, Tripod::RLR)
}

// A leg's three joint angles go into 12 bytes.
fn put_angles(s: &mut [u8], at: usize, a: LegAngles)
    requires { (at + 12 ≤ length s.old) × (finite_angles a ≡ true) }
    ensures { s.new ≡ sets s.old at (floats_bytes (joints_of a)) }
{
    packed::put_float(s, at, a.coxa);
    packed::put_float(s, at + 4, a.femur);
    packed::put_float(s, at + 8, a.tibia);
}

/// Eighteen joint angles become what a row of 72 bytes holds.
pub fn put_joints(s: &mut [u8], j: Joints)
    requires { (length s.old ≡ 72) × (finite_joints j ≡ true) }
    ensures { s.new ≡ joint_bytes j }
{
    put_angles(s, 0, j.left_front);
    put_angles(s, 12, j.right_front);
    put_angles(s, 24, j.left_middle);
    put_angles(s, 36, j.right_middle);
    put_angles(s, 48, j.left_rear);
    put_angles(s, 60, j.right_rear);
}
