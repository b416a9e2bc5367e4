// The operations behind the door, total on every value, for the rooms above.
ghost use Rattle.std.specs.Prelude.{◌≡◌};
ghost use Rattle.commands.specs.Times.{whole_number, elapsed_permitted, period_permitted, in_seconds};
ghost use Rattle.commands.specs.How.{counted, capped};
ghost use Rattle.commands.specs.Command.{finite_command, permitted_command, should_move};
ghost use Rattle.commands.specs.Tripods.{is_lrl};

use crate::{MoveCommand, Time, Tripod};
use numbers::{door, limits};

/// Whether an elapsed time is in the table: at most 3600 s and nanoseconds below 10^9.
#[tactic(auto, unfolding(crate::specs::Times::elapsed_permitted))]
pub fn is_elapsed(t: Time) -> bool
    ensures { result ≡ elapsed_permitted t }
{
    (t.seconds <= 3600) & (t.nanoseconds < 1_000_000_000)
}

/// Whether a period or a step time is in the table: 1 ms to 60 s, nanoseconds below 10^9.
#[tactic(auto, unfolding(crate::specs::Times::period_permitted))]
pub fn is_period(t: Time) -> bool
    ensures { result ≡ period_permitted t }
{
    if t.seconds <= 60 {
        let total = t.seconds * 1_000_000_000 + (t.nanoseconds as u64);
        (t.nanoseconds < 1_000_000_000) & (1_000_000 <= total) & (total <= 60_000_000_000)
    } else {
        false
    }
}

/// A whole number as the nearest f32. The two halves are exact, so that their sum is rounded once.
pub fn rounded(n: u32) -> f32
    ensures { result ≡ whole_number n }
{
    let high = (n / 0x100_0000) as f32;
    let low = (n % 0x100_0000) as f32;
    high * 16777216.0 + low
}

// At most 2^24, up to which f32 counts one by one. A u32 holds that: a board that has no conversion of
// 64 bits would make one from doubles.
fn counted(seconds: u64) -> u32
    ensures { result ≡ counted seconds }
{
    seconds.min(0x100_0000) as u32
}

/// A time as f32 seconds. More than 2^24 whole seconds count as 2^24; the door lets 3600 pass.
pub fn as_secs_f32(t: Time) -> f32
    ensures { result ≡ in_seconds (capped t) }
{
    let seconds = counted(t.seconds) as f32;
    seconds + rounded(t.nanoseconds) / 1000000000.0
}

/// Whether left front, right middle and left rear are the lifted ones.
pub fn is_lrl(tripod: Tripod) -> bool
    ensures { result ≡ is_lrl tripod }
{
    tripod == Tripod::LRL
}

/// Whether all four floats are finite.
#[tactic(auto, unfolding(crate::specs::Command::finite_command))]
pub fn command_finite(c: MoveCommand) -> bool
    ensures { result ≡ finite_command c }
{
    door::is_finite(c.direction_x)
        & door::is_finite(c.direction_y)
        & door::is_finite(c.rotation)
        & door::is_finite(c.step_height)
}

/// Whether all four floats are in the table.
#[tactic(auto, unfolding(crate::specs::Command::permitted_command))]
pub fn command_permitted(c: MoveCommand) -> bool
    ensures { result ≡ permitted_command c }
{
    let length = limits::direction();
    let angle = limits::rotation();
    door::is_permitted(length, c.direction_x)
        & door::is_permitted(length, c.direction_y)
        & door::is_permitted(angle, c.rotation)
        & door::is_permitted(length, c.step_height)
}

/// Whether rotation, direction x or direction y is no smaller than f32's EPSILON, 2^-23.
#[tactic(auto, using(crate::proofs::Constants::epsilon_bits), unfolding(crate::specs::Command::should_move))]
pub fn should_move(c: MoveCommand) -> bool
    ensures { result ≡ should_move c }
{
    let epsilon: f32 = 0.00000011920928955078125;
    let rotation = numbers::unchecked::absolute(c.rotation) < epsilon;
    let x = numbers::unchecked::absolute(c.direction_x) < epsilon;
    let y = numbers::unchecked::absolute(c.direction_y) < epsilon;
    !(rotation & x & y)
}
