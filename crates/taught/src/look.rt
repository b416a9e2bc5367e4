// What is seen of a lent room: whether some run of calls can have left it, how many places are used, where an id stands.
ghost use Rattle.std.specs.Prelude.{◌≡◌, ◌+◌, ◌*◌, ◌≤◌, ◌&&◌, length, drop, ◌==◌, nat_le, nat_lt};
ghost use Rattle.taught.specs.Room.{holds, marks_good, used, all_zero, place_from, id_of, ids_from, room_length, most};
ghost use Rattle.taught.specs.How.{low, words_low, seen_of};

use numbers::Refusal;

// Kept: a flag beside a place, since the place is used either way, found or not. A Result of two places is no plainer.

/// What the calls need of a room and an id: how many places are used, the first whose id is not below this one, and whether it has it.
#[derive(Clone, Copy, Debug, PartialEq, Eq)]
pub struct Seen {
    pub used: usize,
    pub place: usize,
    pub there: bool,
}

// Whether a float of these bits is finite and from -4 to 4: without the sign they are at most 4's.
fn is_low(bits: u32) -> bool
    ensures { result ≡ low bits }
{
    bits % 0x8000_0000 <= 0x4080_0000
}

// Whether eighteen floats from a place on are.
fn coordinates_good(room: &[u8], at: usize) -> bool
    requires { at + 72 ≤ length room.now }
    ensures { result ≡ words_low 18 room.now at }
{
    let mut good = true;
    for i in 0..18 {
        good = good & is_low(packed::word_at(room, at + 4 * i));
    }
    good
}

// Whether a byte is a mark.
fn is_mark(b: u8) -> bool
    ensures { result ≡ nat_le b 1 }
{
    b <= 1
}

// Whether the six marks of the place that begins there are.
fn marks_good(room: &[u8], at: usize) -> bool
    requires { at + 80 ≤ length room.now }
    ensures { result ≡ marks_good (drop at room.now) }
{
    is_mark(room[at + 2])
        & is_mark(room[at + 3])
        & is_mark(room[at + 4])
        & is_mark(room[at + 5])
        & is_mark(room[at + 6])
        & is_mark(room[at + 7])
}

// Whether a place holds a pose, under an id above the one before it.
fn holds(room: &[u8], at: usize, last: u16) -> bool
    requires { at + 80 ≤ length room.now }
    ensures { result ≡ holds last (drop at room.now) }
{
    (last < packed::pair_at(room, at)) & marks_good(room, at) & coordinates_good(room, at + 8)
}

// How many places in front hold poses, under rising ids.
fn used(room: &[u8]) -> usize
    requires { length room.now ≡ room_length }
    ensures { result ≡ used room.now }
{
    let mut last: u16 = 0;
    for n in 0..64 {
        if !holds(room, 80 * n, last) {
            return n;
        }
        last = packed::pair_at(room, 80 * n);
    }
    64
}

// Whether all bytes are 0.
fn all_zero(bytes: &[u8]) -> bool
    ensures { result ≡ all_zero bytes.now }
{
    let mut good = true;
    for b in bytes {
        good = good & (*b == 0);
    }
    good
}

// The first of n places whose id is not below this one, or n.
fn place_of(room: &[u8], n: usize, id: u16) -> usize
    requires { (n ≤ most) × (length room.now ≡ room_length) }
    ensures { result ≡ place_from n id room.now }
{
    for k in 0..n {
        if id <= packed::pair_at(room, 80 * k) {
            return k;
        }
    }
    n
}

// Whether the id stands at the place, which is one of n.
fn is_at(room: &[u8], n: usize, place: usize, id: u16) -> bool
    requires { (n ≤ most) × (length room.now ≡ room_length) }
    ensures { result ≡ nat_lt place n && (id_of (drop (80 * place) room.now) == id) }
{
    place < n && packed::pair_at(room, 80 * place) == id
}

/// What is seen of a room, and of an id in it; `NoRoom` where no run of calls can have left the room.
pub fn looked(room: &[u8], id: u16) -> Result<Seen, Refusal>
    ensures { result ≡ seen_of id room.now }
{
    if room.len() != 5120 {
        return Err(Refusal::NoRoom);
    }
    let used = used(room);
    if !all_zero(&room[80 * used..]) {
        return Err(Refusal::NoRoom);
    }
    let place = place_of(room, used, id);
    let there = is_at(room, used, place, id);
    Ok(Seen { used, place, there })
}

/// The ids of the 64 places; an unused one has 0.
pub fn ids(room: &[u8]) -> [u16; 64]
    requires { length room.now ≡ room_length }
    ensures { result ≡ ids_from most room.now }
{
    let mut ids = [0u16; 64];
    // Kept: the place goes 80 on at each turn; with `80 * k` a list took 1.54 of Rust's time, with this 0.96 (docs/HISTORY.md, K11).
    let mut at: usize = 0;
    for id in ids.iter_mut() {
        *id = packed::pair_at(room, at);
        at += 80;
    }
    ids
}
