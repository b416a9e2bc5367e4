// Joint angles for foot points, and foot points for joint angles (source 002).
// Lengths are metres, angles radians.
#![tactic(auto)]

ghost use Rattle.std.specs.Prelude.{◌≡◌};
ghost use Rattle.numbers.specs.Refusals.{number_or_0};
ghost use Rattle.legs.specs.Answers.{told as told_feet};
ghost use Rattle.joints.specs.Answers.{told};
ghost use Rattle.joints.specs.Inverse.{ik_refusal, ik_told};
ghost use Rattle.joints.specs.Strict.{strict_told};
ghost use Rattle.joints.specs.Forward.{fk_refusal, fk_told};

use crate::configuration::Configuration;
use legs::{Feet, Joints};
use numbers::{Refusal, door, limits};

pub mod configuration;
mod refusal;
pub mod unchecked;

pub use refusal::SolverRefusal;

/// Why feet are refused at the door: the lowest number that applies.
pub fn admit_ik(feet: Feet, config: Configuration) -> Result<(), Refusal>
    ensures { number_or_0 result ≡ ik_refusal feet config }
{
    let foot = limits::foot_limit();
    let permitted = legs::unchecked::feet_permitted(foot, feet) & configuration::permitted(config);
    if permitted {
        Ok(())
    } else {
        Err(door::outside(legs::unchecked::feet_finite(feet) & configuration::finite(config)))
    }
}

/// The joint angles that put the six feet there, lifted or not.
#[tactic(auto, using(numbers::proofs::Admitted::entry), unfolding(crate::specs::Inverse::ik_told))]
pub fn calculate_ik(feet: Feet, config: Configuration) -> Result<Joints, SolverRefusal>
    ensures { told result ≡ ik_told feet config }
{
    admit_ik(feet, config)?;
    unchecked::calculate_ik(feet, config)
}

/// The same where the leg can reach: a foot farther from its coxa's end than the f32 sum of femur and tibia, or nearer than the magnitude
/// of their f32 difference, is refused.
#[tactic(auto, using(numbers::proofs::Admitted::entry), unfolding(crate::specs::Strict::strict_told))]
pub fn calculate_ik_strict(feet: Feet, config: Configuration) -> Result<Joints, SolverRefusal>
    ensures { told result ≡ strict_told feet config }
{
    admit_ik(feet, config)?;
    unchecked::calculate_ik_strict(feet, config)
}

/// Why joint angles are refused at the door: the lowest number that applies.
pub fn admit_fk(joints: Joints, config: Configuration) -> Result<(), Refusal>
    ensures { number_or_0 result ≡ fk_refusal joints config }
{
    let permitted = configuration::joints_permitted(joints) & configuration::permitted(config);
    if permitted {
        Ok(())
    } else {
        Err(door::outside(configuration::joints_finite(joints) & configuration::finite(config)))
    }
}

/// Where the feet are at these joint angles. All stand: motors say nothing of lifting.
#[tactic(auto, using(numbers::proofs::Admitted::entry), unfolding(crate::specs::Forward::fk_told))]
pub fn calculate_fk(joints: Joints, config: Configuration) -> Result<Feet, Refusal>
    ensures { told_feet result ≡ fk_told joints config }
{
    admit_fk(joints, config)?;
    Ok(legs::unchecked::standing(unchecked::calculate_fk(joints, config)))
}
