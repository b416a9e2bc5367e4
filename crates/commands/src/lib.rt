// Move commands, the two tripods, and times (source 000).
// Lengths are metres, angles radians, times seconds and nanoseconds.
#![tactic(auto)]

ghost use Rattle.std.specs.Prelude.{◌≡◌};
ghost use Rattle.numbers.specs.Refusals.{number_or_0};
ghost use Rattle.commands.specs.Answers.{told, told_should, told_tripod};
ghost use Rattle.commands.specs.Command.{default_step_time, default_step_height, default_step_distance, default_command};
ghost use Rattle.commands.specs.Command.{command_refusal, checked_told, new_told, with_told, should_move_told};
ghost use Rattle.commands.specs.Tripods.{inverted, flag_of};

use numbers::{Refusal, door};

pub mod unchecked;

/// Whole seconds, and nanoseconds below 10^9.
#[derive(Clone, Copy, Debug, PartialEq, Eq)]
pub struct Time {
    pub seconds: u64,
    pub nanoseconds: u32,
}

/// What the driver asks for: a direction in metres, a rotation in radians, and how a step is made.
#[derive(Clone, Copy, Debug, PartialEq)]
pub struct MoveCommand {
    pub direction_x: f32,
    pub direction_y: f32,
    pub rotation: f32,
    pub step_time: Time,
    pub step_height: f32,
    pub aggressive_leg_lift: bool,
}

/// The three legs that are lifted together: left front, right middle, left rear; or the other three.
#[derive(Clone, Copy, Debug, PartialEq, Eq)]
pub enum Tripod {
    LRL,
    RLR,
}

/// The source's default step time, 600 ms.
pub fn default_step_time() -> Time
    ensures { result ≡ default_step_time }
{
    Time {
        seconds: 0,
        nanoseconds: 600_000_000,
    }
}

/// The source's default step height, 0.03 m.
#[tactic(auto, using(crate::proofs::Constants::height_bits))]
pub fn default_step_height() -> f32
    ensures { result ≡ default_step_height }
{
    0.03
}

/// The source's default step distance, 0.025 m.
#[tactic(auto, using(crate::proofs::Constants::distance_bits))]
pub fn default_step_distance() -> f32
    ensures { result ≡ default_step_distance }
{
    0.025
}

impl Tripod {
    /// The other three legs.
    pub fn invert(self) -> Tripod
        ensures { told_tripod result ≡ told_tripod (inverted self) }
    {
        match self {
            Tripod::LRL => Tripod::RLR,
            Tripod::RLR => Tripod::LRL,
        }
    }

    /// The mask of its legs.
    pub fn as_flag(self) -> u32
        ensures { result ≡ flag_of self }
    {
        match self {
            Tripod::LRL => legs::flags::lrl_tripod(),
            Tripod::RLR => legs::flags::rlr_tripod(),
        }
    }
}

impl Default for MoveCommand {
    ghost is_default = { λ c. c ≡ default_command };

    /// Stand still: no direction, no rotation, the default step time and height.
    #[tactic(auto, using(crate::proofs::Constants::nought_bits), unfolding(crate::specs::Command::default_command))]
    fn default() -> MoveCommand
        ensures { result ≡ default_command }
    {
        MoveCommand {
            direction_x: 0.0,
            direction_y: 0.0,
            rotation: 0.0,
            step_time: default_step_time(),
            step_height: default_step_height(),
            aggressive_leg_lift: false,
        }
    }
}

impl MoveCommand {
    /// This direction and rotation, all else as in the default. Refused where a number is not finite, or outside the table.
    #[tactic(auto, unfolding(crate::specs::Command::new_told))]
    pub fn new(direction_x: f32, direction_y: f32, rotation: f32) -> Result<MoveCommand, Refusal>
        ensures { told result ≡ new_told direction_x direction_y rotation }
    {
        let command = MoveCommand {
            direction_x,
            direction_y,
            rotation,
            ..MoveCommand::default()
        };
        command.checked()
    }

    /// Every field given. Refused where a number is not finite, or it or the step time outside the table.
    pub fn with_optional_fields(
        direction_x: f32,
        direction_y: f32,
        rotation: f32,
        step_time: Time,
        step_height: f32,
        aggressive_leg_lift: bool,
    ) -> Result<MoveCommand, Refusal>
        ensures { told result ≡ with_told direction_x direction_y rotation step_time step_height aggressive_leg_lift }
    {
        let command = MoveCommand {
            direction_x,
            direction_y,
            rotation,
            step_time,
            step_height,
            aggressive_leg_lift,
        };
        command.checked()
    }

    /// Whether the command asks for a move at all: some part of it is no smaller than f32's EPSILON.
    #[tactic(auto, using(numbers::proofs::Admitted::entry))]
    pub fn should_move(self) -> Result<bool, Refusal>
        ensures { told_should result ≡ should_move_told self }
    {
        self.admit()?;
        Ok(unchecked::should_move(self))
    }

    // Why the command is refused: the lowest number that applies.
    #[tactic(auto, using(crate::proofs::OnePass::command_looked_at), unfolding(crate::specs::Command::command_refusal))]
    fn admit(self) -> Result<(), Refusal>
        ensures { number_or_0 result ≡ command_refusal self }
    {
        if unchecked::command_permitted(self) {
            door::ensure(unchecked::is_period(self.step_time), Refusal::Time)
        } else {
            Err(door::outside(unchecked::command_finite(self)))
        }
    }

    // The command as it is, or why it is refused.
    #[tactic(auto, using(numbers::proofs::Admitted::entry))]
    fn checked(self) -> Result<MoveCommand, Refusal>
        ensures { told result ≡ checked_told self }
    {
        self.admit()?;
        Ok(self)
    }
}
