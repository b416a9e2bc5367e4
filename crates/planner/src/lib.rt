// Where the feet are to be next: the lifted three ahead, the standing three back under the body (source 000).
// Lengths are metres, angles radians.
#![tactic(auto)]

ghost use Rattle.std.specs.Prelude.{◌≡◌};
ghost use Rattle.numbers.specs.Refusals.{number_or_0};
ghost use Rattle.legs.specs.Answers.{told};
ghost use Rattle.planner.specs.Entry.{plan_refusal, plan_told};

use commands::{MoveCommand, Tripod};
use legs::Feet;
use numbers::{Refusal, door};

pub mod turns;
pub mod unchecked;

/// Why a plan is refused: the lowest number that applies.
#[tactic(auto, using(crate::proofs::LetIn::looked_at), unfolding(crate::specs::Entry::plan_refusal))]
pub fn admit_plan(start: Feet, relaxed: Feet, command: MoveCommand) -> Result<(), Refusal>
    ensures { number_or_0 result ≡ plan_refusal start relaxed command }
{
    let permitted = legs::unchecked::feet_in_limits(start)
        & legs::unchecked::feet_in_limits(relaxed)
        & commands::unchecked::command_permitted(command);
    if permitted {
        door::ensure(
            commands::unchecked::is_period(command.step_time),
            Refusal::Time,
        )
    } else {
        Err(door::outside(
            legs::unchecked::feet_finite(start)
                & legs::unchecked::feet_finite(relaxed)
                & commands::unchecked::command_finite(command),
        ))
    }
}

/// The next target of all six feet, from where they are, where they stand relaxed, and the command. They keep the marks that they have.
/// Refused where a number is not finite, or it or the step time outside the table.
#[tactic(auto, using(numbers::proofs::Admitted::entry), unfolding(crate::specs::Entry::plan_told, crate::specs::Entry::planned_feet))]
pub fn step_with_relaxed_transformation(
    start: Feet,
    relaxed: Feet,
    lifted_tripod: Tripod,
    command: MoveCommand,
) -> Result<Feet, Refusal>
    ensures { told result ≡ plan_told start relaxed lifted_tripod command }
{
    admit_plan(start, relaxed, command)?;
    let from = legs::unchecked::points_of(start);
    let rest = legs::unchecked::points_of(relaxed);
    let to = unchecked::step_with_relaxed_transformation(from, rest, lifted_tripod, command);
    Ok(legs::unchecked::marked_as(start, to))
}
