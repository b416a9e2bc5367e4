// Bytes that move in a lent room.
ghost use Rattle.std.specs.Prelude.{◌≡◌, ◌+◌, ◌≤◌, true, length};
ghost use Rattle.std.proofs.lemmas.List.Edits.{sets};
ghost use Rattle.legs.specs.Legs.{finite_feet};
ghost use Rattle.taught.specs.Room.{place_bytes};
ghost use Rattle.taught.specs.How.{up, down, cleared};

use legs::Feet;

/// The bytes from one place to another go 80 up.
pub fn move_up(room: &mut [u8], from: usize, to: usize)
    requires { (from ≤ to) × (to + 80 ≤ length room.old) }
    ensures { room.new ≡ up room.old to from }
{
    room.copy_within(from..to, from + 80);
}

/// The bytes 80 behind those from one place to another go down onto them.
pub fn move_down(room: &mut [u8], from: usize, to: usize)
    requires { (from ≤ to) × (to + 80 ≤ length room.old) }
    ensures { room.new ≡ down room.old from to }
{
    room.copy_within(from + 80..to + 80, from);
}

/// The bytes from one place to another become 0.
pub fn clear(room: &mut [u8], from: usize, to: usize)
    requires { (from ≤ to) × (to ≤ length room.old) }
    ensures { room.new ≡ cleared room.old from to }
{
    room[from..to].fill(0);
}

/// A place is written: the id, then the pose.
pub fn put_place(room: &mut [u8], at: usize, id: u16, pose: Feet)
    requires { (at + 80 ≤ length room.old) × (finite_feet pose ≡ true) }
    ensures { room.new ≡ sets room.old at (place_bytes id pose) }
{
    packed::put_pair(room, at, id);
    packed::put_feet(room, at + 2, pose);
}
