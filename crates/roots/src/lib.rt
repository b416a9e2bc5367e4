// The square root of a number from 0 to 65536, correctly rounded.
#![tactic(auto)]

ghost use Rattle.std.specs.Prelude.{◌≡◌};
ghost use Rattle.std.specs.Prelude.{IfOk};
ghost use Rattle.numbers.specs.Answers.{told};
ghost use Rattle.roots.specs.Entries.{square_root_told};
ghost use Rattle.roots.specs.Root.{RootOf};

use numbers::{Refusal, limits};

mod digits;
mod seed;
pub mod unchecked;

/// The f32 nearest to the root of x; of a zero that zero.
pub fn square_root(x: f32) -> Result<f32, Refusal>
    ensures exact { told result ≡ square_root_told x }
    ensures closest { IfOk result (RootOf x) }
{
    Ok(unchecked::square_root(limits::root_argument().admit(x)?))
}
