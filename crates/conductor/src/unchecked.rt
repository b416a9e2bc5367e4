// The parts of a call, each by what it looks at alone, for those who hold a state in another form.
ghost use Rattle.std.specs.Prelude.{◌≡◌, true, ◌&&◌};
ghost use Rattle.numbers.specs.Limits.{foot_limit};
ghost use Rattle.legs.specs.Legs.{permitted_feet};
ghost use Rattle.commands.specs.Command.{permitted_command};
ghost use Rattle.planner.specs.Entry.{planned_feet};
ghost use Rattle.joints.specs.Configured.{permitted_configuration};
ghost use Rattle.joints.specs.Answers.{told as told_joints};
ghost use Rattle.joints.specs.Inverse.{ik_told};
ghost use Rattle.conductor.specs.Answers.{step, told, with_kind};
ghost use Rattle.conductor.specs.How.{lift_under, made_under, end_kind};

use crate::Reply;
use commands::{MoveCommand, Time, Tripod};
use joints::SolverRefusal;
use joints::configuration::Configuration;
use legs::{Feet, Joints};
use numbers::{Refusal, door};
use steps::Lift;
use steps::unchecked::Course;

/// Whether what the step does not look at itself is in the table: the relaxed feet, the command's floats, the configuration.
pub fn others_permitted(relaxed: Feet, command: MoveCommand, configuration: Configuration) -> bool
    ensures { result ≡ (permitted_feet foot_limit relaxed && permitted_command command && permitted_configuration configuration) }
{
    legs::unchecked::feet_permitted(numbers::limits::foot_limit(), relaxed)
        & commands::unchecked::command_permitted(command)
        & joints::configuration::permitted(configuration)
}

// How the feet are lifted under a command: over its height, with no descent.
fn lift_under(lifted: Tripod, command: MoveCommand) -> Lift
    ensures { result ≡ lift_under lifted command }
{
    Lift {
        step_height: command.step_height,
        grounded_leg_descent: 0.0,
        tripod: lifted,
        aggressive_leg_lift: command.aggressive_leg_lift,
    }
}

/// The step of a course under a command, at even pace and in the command's step time: its feet, or none where no leg moves any more.
pub fn made(
    course: Course,
    lifted: Tripod,
    command: MoveCommand,
    elapsed: Time,
) -> Result<Option<Feet>, Refusal>
    ensures { result ≡ made_under course lifted command elapsed }
{
    let lift = lift_under(lifted, command);
    steps::unchecked::even_made(course, command.step_time, lift, elapsed)
}

// Kept: that the configuration is permitted stands three times below. A type for it would be built in two places and read in three, and
// hold 41 floats once more on a board.

// The joints of these feet, where they are in the table; the configuration is.
fn solved(feet: Feet, configuration: Configuration) -> Result<Joints, SolverRefusal>
    requires { permitted_configuration configuration ≡ true }
    ensures { told_joints result ≡ ik_told feet configuration }
{
    if legs::unchecked::feet_permitted(numbers::limits::foot_limit(), feet) {
        joints::unchecked::calculate_ik(feet, configuration)
    } else {
        Err(SolverRefusal::from(door::outside(legs::unchecked::feet_finite(feet))))
    }
}

/// A step goes on to these feet, unless they are refused.
pub fn stepped(feet: Feet, configuration: Configuration) -> Result<Reply, SolverRefusal>
    requires { permitted_configuration configuration ≡ true }
    ensures { told result ≡ with_kind step feet (ik_told feet configuration) }
{
    Ok(Reply::Step(feet, solved(feet, configuration)?))
}

/// Where no leg moves any more: the next step is planned if the command should move, else all rests; unless the last feet are refused.
pub fn ended(
    last: Feet,
    command: MoveCommand,
    configuration: Configuration,
) -> Result<Reply, SolverRefusal>
    requires { permitted_configuration configuration ≡ true }
    ensures { told result ≡ with_kind (end_kind command) last (ik_told last configuration) }
{
    let joints = solved(last, configuration)?;
    if commands::unchecked::should_move(command) {
        Ok(Reply::Planned(joints))
    } else {
        Ok(Reply::Rests(joints))
    }
}

/// Where the feet go next, by this tripod.
pub fn next_target(last: Feet, relaxed: Feet, lifted: Tripod, command: MoveCommand) -> Feet
    ensures { result ≡ planned_feet last relaxed lifted command }
{
    let from = legs::unchecked::points_of(last);
    let rest = legs::unchecked::points_of(relaxed);
    let to = planner::unchecked::step_with_relaxed_transformation(from, rest, lifted, command);
    legs::unchecked::marked_as(last, to)
}
