// Taught poses (request K11): up to 64 poses under ids from 1 to 65535, kept in 5,120 bytes that the host lends.
// docs/TAUGHT.md has the layout. Lengths are metres.
#![tactic(auto)]

ghost use Rattle.std.specs.Prelude.{◌≡◌};
ghost use Rattle.legs.specs.Answers.{told as told_feet};
ghost use Rattle.taught.specs.Answers.{told};
ghost use Rattle.taught.specs.Map.{fresh, put, get, drop_id};
ghost use Rattle.taught.specs.Room.{told_of, room_after, listed_of};

use legs::Feet;
use numbers::{Refusal, door};

mod look;
mod moves;
mod refusals;

/// How many poses there are, and their ids in rising order; the places behind them hold 0.
#[derive(Clone, Copy, Debug, PartialEq, Eq)]
pub struct Listed {
    pub len: usize,
    pub ids: [u16; 64],
}

/// The room becomes an empty store, whatever it held. `NoRoom` where it has not 5,120 bytes.
pub fn fresh(room: &mut [u8]) -> Result<(), Refusal>
    ensures { (told result ≡ told_of fresh room.old) × (room.new ≡ room_after fresh room.old) }
{
    door::ensure(room.len() == 5120, Refusal::NoRoom)?;
    room.fill(0);
    Ok(())
}

/// The pose stands under the id from now on, in the place of another that did. Refused, in this order: `NoRoom` for a room that no run
/// of calls can have left, `NotFinite` and `Outside` for the pose, `IdZero`, `StoreFull` for a new id.
pub fn put(room: &mut [u8], id: u16, pose: Feet) -> Result<(), Refusal>
    ensures { (told result ≡ told_of (put id pose) room.old)
        × (room.new ≡ room_after (put id pose) room.old) }
{
    let seen = look::looked(room, id)?;
    refusals::admit_put(seen, id, pose)?;
    let at = 80 * seen.place;
    if seen.there {
        moves::put_place(room, at, id, pose);
        return Ok(());
    }
    moves::move_up(room, at, 80 * seen.used);
    moves::put_place(room, at, id, pose);
    Ok(())
}

/// The pose under the id. Refused, in this order: `NoRoom`, `IdZero`, `NoSuchId`.
pub fn get(room: &[u8], id: u16) -> Result<Feet, Refusal>
    ensures { told_feet result ≡ told_of (get id) room.now }
{
    let seen = look::looked(room, id)?;
    refusals::admit_find(seen, id)?;
    Ok(packed::feet_at(room, 80 * seen.place + 2))
}

/// No pose stands under the id from now on. Refused, in this order: `NoRoom`, `IdZero`, `NoSuchId`.
pub fn drop(room: &mut [u8], id: u16) -> Result<(), Refusal>
    ensures { (told result ≡ told_of (drop_id id) room.old) × (room.new ≡ room_after (drop_id id) room.old) }
{
    let seen = look::looked(room, id)?;
    refusals::admit_find(seen, id)?;
    let last = 80 * seen.used - 80;
    moves::move_down(room, 80 * seen.place, last);
    moves::clear(room, last, last + 80);
    Ok(())
}

/// The ids in rising order. `NoRoom` for a room that no run of calls can have left.
pub fn list(room: &[u8]) -> Result<Listed, Refusal>
    ensures { result ≡ listed_of room.now }
{
    let seen = look::looked(room, 0)?;
    Ok(Listed {
        len: seen.used,
        ids: look::ids(room),
    })
}
