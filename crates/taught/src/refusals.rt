// Why a call on a room that is good is refused: what stands in the pose first, then the id.
ghost use Rattle.std.specs.Prelude.{◌≡◌, not, ◌&&◌, nat_le};
ghost use Rattle.numbers.specs.Refusals.{number_or_0};
ghost use Rattle.taught.specs.Map.{put_number, find_number};
ghost use Rattle.taught.specs.Room.{most};

use crate::look::Seen;
use legs::Feet;
use numbers::{Refusal, door};

/// Why a put is refused.
pub fn admit_put(seen: Seen, id: u16, pose: Feet) -> Result<(), Refusal>
    ensures { number_or_0 result ≡ put_number id pose (not seen.there && nat_le most seen.used) }
{
    if !legs::unchecked::feet_in_limits(pose) {
        return Err(door::outside(legs::unchecked::feet_finite(pose)));
    }
    door::ensure(id != 0, Refusal::IdZero)?;
    door::ensure(seen.there | (seen.used < 64), Refusal::StoreFull)
}

/// Why nothing is found under an id.
pub fn admit_find(seen: Seen, id: u16) -> Result<(), Refusal>
    ensures { number_or_0 result ≡ find_number id seen.there }
{
    door::ensure(id != 0, Refusal::IdZero)?;
    door::ensure(seen.there, Refusal::NoSuchId)
}
