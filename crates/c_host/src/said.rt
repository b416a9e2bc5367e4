// What a call says of the state in a row. Each part is read where it is looked at, so that no whole state lies below the deepest calls.
// Kept: fixed memory. `conductor::conducted` makes the same choices of a whole state.
ghost use Rattle.std.specs.Prelude.{◌≡◌, ◌+◌, ◌≤◌, true, length};
ghost use Rattle.legs.specs.Legs.{finite_points};
ghost use Rattle.joints.specs.Configured.{permitted_configuration};
ghost use Rattle.joints.specs.Inverse.{ik_told};
ghost use Rattle.conductor.specs.States.{finite_state};
ghost use Rattle.conductor.specs.Answers.{step, told, with_kind};
ghost use Rattle.conductor.specs.Conduct.{conduct_told};
ghost use Rattle.conductor.specs.How.{made_of, others_permitted, end_kind};
ghost use Rattle.state_row.specs.Layout.{state_of};
ghost use Rattle.state_row.specs.How.{points_in};

use commands::Time;
use conductor::Reply;
use joints::SolverRefusal;
use joints::configuration::Configuration;
use legs::Feet;
use numbers::{Refusal, door};
use state_row::{
    CONFIGURATION, LAST, LAST_MARKS, RELAXED, RELAXED_MARKS, STATE_LENGTH, TARGET, TRIPOD,
};
use steps::unchecked::Course;

/// A state's row.
pub type Row = [u8; STATE_LENGTH];

/// A state's row as one.
pub fn row_of(state: &[u8]) -> &Row
    requires { length state.now ≡ 506 }
    ensures { result.now ≡ state.now }
{
    state.as_array().unwrap()
}

// Whether what the step does not look at itself is in the table.
fn others_permitted(s: &Row) -> bool
    ensures { result ≡ others_permitted (state_of s.now) }
{
    let relaxed = packed::feet_in(s, RELAXED_MARKS, RELAXED);
    let command = state_row::command_at(s);
    conductor::unchecked::others_permitted(relaxed, command, configuration(s))
}

// How the crawler is built.
fn configuration(s: &Row) -> Configuration
    ensures { result ≡ (state_of s.now).configuration }
{
    state_row::configuration_at(s, CONFIGURATION)
}

// Whether six points of the row are finite, and whether all of its floats are.
fn points_finite(s: &Row, at: usize) -> bool
    requires { at + 72 ≤ 506 }
    ensures { result ≡ finite_points (points_in s.now at) }
{
    legs::unchecked::points_finite(state_row::points_in(s, at))
}

fn all_finite(s: &Row) -> bool
    ensures { result ≡ finite_state (state_of s.now) }
{
    points_finite(s, 0)
        & points_finite(s, LAST)
        & points_finite(s, TARGET)
        & points_finite(s, RELAXED)
        & commands::unchecked::command_finite(state_row::command_at(s))
        & joints::configuration::finite(configuration(s))
}

// The row's step at this time: its feet, or none where no leg moves any more.
fn made(s: &Row, elapsed: Time) -> Result<Option<Feet>, Refusal>
    ensures { result ≡ made_of (state_of s.now) elapsed }
{
    let course = Course {
        start: state_row::points_in(s, 0),
        last: packed::feet_in(s, LAST_MARKS, LAST),
        target: state_row::points_in(s, TARGET),
    };
    let lifted = state_row::tripod_of(s[TRIPOD]);
    conductor::unchecked::made(course, lifted, state_row::command_at(s), elapsed)
}

// The step goes on to these feet.
fn stepped(s: &Row, feet: Feet) -> Result<Reply, SolverRefusal>
    requires { permitted_configuration (state_of s.now).configuration ≡ true }
    ensures { told result ≡ with_kind step feet (ik_told feet (state_of s.now).configuration) }
{
    conductor::unchecked::stepped(feet, configuration(s))
}

// No leg moves any more.
fn ended(s: &Row) -> Result<Reply, SolverRefusal>
    requires { permitted_configuration (state_of s.now).configuration ≡ true }
    ensures { told result ≡ with_kind (end_kind (state_of s.now).command) (state_of s.now).last
        (ik_told (state_of s.now).last (state_of s.now).configuration) }
{
    let last = packed::feet_in(s, LAST_MARKS, LAST);
    let command = state_row::command_at(s);
    conductor::unchecked::ended(last, command, configuration(s))
}

/// What a call says.
pub fn replied(s: &Row, elapsed: Time) -> Result<Reply, SolverRefusal>
    ensures { told result ≡ conduct_told (state_of s.now) elapsed }
{
    if !others_permitted(s) {
        return Err(SolverRefusal::from(door::outside(all_finite(s))));
    }
    match made(s, elapsed)? {
        Some(feet) => stepped(s, feet),
        None => ended(s),
    }
}
