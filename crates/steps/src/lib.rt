// Steps of six feet towards their targets: by distance, by time, and by time at even pace (source 000).
// Lengths are metres, angles radians, times seconds and nanoseconds.
#![tactic(auto)]

ghost use Rattle.std.specs.Prelude.{◌≡◌};
ghost use Rattle.numbers.specs.Answers.{told};
ghost use Rattle.numbers.specs.Refusals.{number_or_0};
ghost use Rattle.steps.specs.Answers.{told_step_iter, told_next_step, told_paced_iter, told_next_paced};
ghost use Rattle.steps.specs.Next.{step_lift};
ghost use Rattle.steps.specs.Refusals.{progress_refusal, step_refusal, lift_refusal};
ghost use Rattle.steps.specs.Entries.{timed_progress_told, even_progress_told, step_iter_told, next_step_told};
ghost use Rattle.steps.specs.Entries.{timed_iter_told, next_paced_told};

use commands::{Time, Tripod};
use legs::Feet;
use numbers::{Refusal, door};
use unchecked::Pace;

pub mod unchecked;

/// How the feet are lifted, in metres. In aggressive mode they rise to full height at once.
#[derive(Clone, Copy, Debug, PartialEq)]
pub struct Lift {
    pub step_height: f32,
    pub grounded_leg_descent: f32,
    pub tripod: Tripod,
    pub aggressive_leg_lift: bool,
}

// Kept: a state of its own beside `PacedStepIterator`, which has other fields: a step by distance has no period and no descent.

/// A step by distance: `max_move` more, in metres, at each turn.
#[derive(Clone, Copy, Debug, PartialEq)]
pub struct StepIterator {
    pub start: Feet,
    pub last: Feet,
    pub target: Feet,
    pub max_move: f32,
    pub step_height: f32,
    pub tripod: Tripod,
    pub aggressive_leg_lift: bool,
}

/// A step by time: at even pace, where it ends only with every foot at its target, or else as the source paces it.
#[derive(Clone, Copy, Debug, PartialEq)]
pub struct PacedStepIterator<const EVEN: bool> {
    pub start: Feet,
    pub last: Feet,
    pub target: Feet,
    pub period: Time,
    pub lift: Lift,
}

/// A step by time, as the source paces it.
pub type TimedStepIterator = PacedStepIterator<false>;

/// A step by time at even pace.
pub type EvenStepIterator = PacedStepIterator<true>;

/// Refuses a time outside the table, elapsed or period.
#[tactic(auto, unfolding(crate::specs::Refusals::progress_refusal))]
pub fn admit_progress(elapsed: Time, period: Time) -> Result<(), Refusal>
    ensures { number_or_0 result ≡ progress_refusal elapsed period }
{
    door::ensure(unchecked::is_timely(elapsed, period), Refusal::Time)
}

/// How far a timed step is: 0 at its start, 1 and more when it is done. A time outside the table is refused.
#[tactic(auto, using(crate::proofs::Uncapped::progress_entry), unfolding(crate::specs::Entries::timed_progress_told))]
pub fn timed_progress(elapsed: Time, period: Time) -> Result<f32, Refusal>
    ensures { told result ≡ timed_progress_told elapsed period }
{
    admit_progress(elapsed, period)?;
    Ok(unchecked::timed_progress(elapsed, period))
}

/// The same at even pace.
#[tactic(auto, using(crate::proofs::Uncapped::progress_entry), unfolding(crate::specs::Entries::even_progress_told))]
pub fn even_progress(elapsed: Time, period: Time) -> Result<f32, Refusal>
    ensures { told result ≡ even_progress_told elapsed period }
{
    admit_progress(elapsed, period)?;
    Ok(unchecked::even_progress(elapsed, period))
}

/// Why a step by distance is refused: the lowest number that applies.
#[tactic(auto, using(crate::proofs::Paces::admitted_by_distance))]
pub fn admit_step(state: StepIterator) -> Result<(), Refusal>
    ensures { number_or_0 result ≡ step_refusal state }
{
    let course = unchecked::course_of(state.start, state.last, state.target);
    unchecked::admit(course, state.lift(), Pace::Distance(state.max_move), true)
}

/// Why a step by time is refused: the lowest number that applies. Whether its times are in the table is known already.
#[tactic(auto, using(crate::proofs::Paces::admitted_by_time))]
pub fn admit_lift(
    start: Feet,
    last: Feet,
    target: Feet,
    lift: Lift,
    timely: bool,
) -> Result<(), Refusal>
    ensures { number_or_0 result ≡ lift_refusal start last target lift timely }
{
    let course = unchecked::course_of(start, last, target);
    unchecked::admit(course, lift, Pace::Even(0.0), timely)
}

impl StepIterator {
    // How its feet are lifted: the source's descent is 0.
    #[tactic(auto, using(crate::proofs::Bits::constants))]
    fn lift(self) -> Lift
        ensures { result ≡ step_lift self }
    {
        Lift {
            step_height: self.step_height,
            grounded_leg_descent: 0.0,
            tripod: self.tripod,
            aggressive_leg_lift: self.aggressive_leg_lift,
        }
    }

    /// Sets out from start; each turn brings the feet `max_move` further.
    #[tactic(auto, using(numbers::proofs::Admitted::entry), unfolding(crate::specs::Entries::step_iter_told))]
    pub fn step(
        start: Feet,
        target: Feet,
        max_move: f32,
        step_height: f32,
        tripod: Tripod,
        aggressive_leg_lift: bool,
    ) -> Result<StepIterator, Refusal>
        ensures { told_step_iter result ≡ step_iter_told start target max_move step_height tripod aggressive_leg_lift }
    {
        let state = StepIterator {
            start,
            last: start,
            target,
            max_move,
            step_height,
            tripod,
            aggressive_leg_lift,
        };
        admit_step(state)?;
        Ok(state)
    }

    /// One step more: the feet now and the state after, or none where the step has ended. All the state's floats are looked at again.
    #[tactic(auto, using(crate::proofs::Paces::step_cases))]
    pub fn next(self) -> Result<Option<(Feet, StepIterator)>, Refusal>
        ensures { told_next_step result ≡ next_step_told self }
    {
        let course = unchecked::course_of(self.start, self.last, self.target);
        let made = unchecked::step_made(course, self.lift(), Pace::Distance(self.max_move), true)?;
        let Some(feet) = made else { return Ok(None) };
        let after = StepIterator { last: feet, ..self };
        Ok(Some((feet, after)))
    }
}

impl<const EVEN: bool> PacedStepIterator<EVEN> {
    /// Sets out from start, for a step of this period.
    #[tactic(auto, using(numbers::proofs::Admitted::entry), unfolding(crate::specs::Entries::timed_iter_told))]
    pub fn step(
        start: Feet,
        target: Feet,
        period: Time,
        lift: Lift,
    ) -> Result<PacedStepIterator<EVEN>, Refusal>
        ensures { told_paced_iter result ≡ timed_iter_told start target period lift }
    {
        admit_lift(
            start,
            start,
            target,
            lift,
            commands::unchecked::is_period(period),
        )?;
        Ok(PacedStepIterator {
            start,
            last: start,
            target,
            period,
            lift,
        })
    }

    /// The step at this time since its start: the feet now and the state after, or none where the step has ended. All the state's numbers
    /// are looked at again.
    #[tactic(auto, using(crate::proofs::Paces::paced_cases))]
    pub fn next(self, elapsed: Time) -> Result<Option<(Feet, PacedStepIterator<EVEN>)>, Refusal>
        ensures { told_next_paced result ≡ next_paced_told EVEN self.entry elapsed }
    {
        let course = unchecked::course_of(self.start, self.last, self.target);
        let made = unchecked::paced_made(EVEN, course, self.period, self.lift, elapsed)?;
        let Some(feet) = made else { return Ok(None) };
        let after = PacedStepIterator { last: feet, ..self };
        Ok(Some((feet, after)))
    }
}
