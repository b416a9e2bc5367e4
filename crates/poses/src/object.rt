// An object read member by member: what its legs have so far, and whether a number lies outside or a name is strange.
ghost use Rattle.std.specs.Prelude.{◌≡◌, ◌+◌, ◌<◌, ◌≤◌, length};
ghost use Rattle.numbers.specs.Told.{choose};
ghost use Rattle.poses.specs.Gathering.{member_read, leg_between, is_strange, placed, one_more, begun, members_read, object_read};
ghost use Rattle.numbers.specs.Refusals.{number_or_0};
ghost use Rattle.poses.specs.Gathering.{the_leg, number_or_6, is_complete, progress_refused, foot_from, pose_from};

use crate::{OptionalFoot, OptionalLegPositions, foot_permitted, names, text, values};
use legs::{HexapodTypes, Leg};
use numbers::{Refusal, door};

// What a leg has: nothing yet, or what its member says.
type Slot = Option<OptionalFoot>;

/// A member: the leg that its name says, if it is a leg's; its value; and the place behind it and the blanks after it.
#[derive(Clone, Copy, Debug, PartialEq)]
pub struct MemberRead {
    pub leg: Option<Leg>,
    pub foot: OptionalFoot,
    pub next: usize,
}

/// How far an object is read: the place, whether a member is due there, whether a number lay outside, whether a name was unknown or
/// there twice, and what each leg has, in row order.
#[derive(Clone, Copy, Debug, PartialEq)]
pub struct Progress {
    pub at: usize,
    pub due: bool,
    pub outside: bool,
    pub strange: bool,
    pub slots: [Slot; 6],
}

// The leg of the name from a place on whose closing quote stands before another.
fn leg_between(s: &[u8], from: usize, end: usize) -> Option<Leg>
    requires { end ≤ length s.now + 1 }
    ensures { result ≡ the_leg (leg_between s.now from end) }
{
    if from < end {
        names::leg_named(&s[from..end - 1])
    } else {
        None
    }
}

// A name, a colon, a value.
fn member(s: &[u8], i: usize) -> MemberRead
    ensures { result ≡ member_read s.now i }
{
    let from = text::after(s, i, b'"');
    let end = names::name_end(s, from);
    let v = values::value_at(s, text::token(s, text::past(s, end), b':'));
    let leg = leg_between(s, from, end);
    MemberRead {
        leg,
        foot: v.foot,
        next: text::past(s, v.next),
    }
}

// Whether a name is no leg's, or was there before.
fn is_strange(slots: &[Slot; 6], leg: Option<Leg>) -> bool
    ensures { result ≡ is_strange slots.now (number_or_6 leg) }
{
    match leg {
        Some(leg) => slots[leg.number() as usize].is_some(),
        None => true,
    }
}

// A leg's value goes to its place, where the leg is one.
fn place(slots: &mut [Slot; 6], leg: Option<Leg>, foot: OptionalFoot)
    ensures { slots.new ≡ placed slots.old (number_or_6 leg) foot }
{
    if let Some(leg) = leg {
        slots[leg.number() as usize] = Some(foot);
    }
}

// What closes a member, or parts it from the next.
fn closing(comma: bool) -> u8
    ensures { result ≡ choose comma 44 125 }
{
    if comma { b',' } else { b'}' }
}

// The member that is due is read.
fn one_more(s: &[u8], p: &mut Progress)
    ensures { p.new ≡ one_more s.now p.old }
{
    let m = member(s, p.at);
    let comma = text::byte_at(s, m.next) == b',';
    p.at = text::token(s, m.next, closing(comma));
    p.due = comma;
    p.outside = p.outside | !foot_permitted(m.foot);
    p.strange = p.strange | is_strange(&p.slots, m.leg);
    place(&mut p.slots, m.leg, m.foot);
}

// Nothing read yet, and a member due or none.
fn begun(at: usize, due: bool) -> Progress
    ensures { result ≡ begun at due }
{
    Progress {
        at,
        due,
        outside: false,
        strange: false,
        slots: [None; 6],
    }
}

// Members from a place on. There are no more than the text has bytes.
fn members(s: &[u8], at: usize) -> Progress
    ensures { result ≡ members_read s.now at }
{
    let mut p = begun(at, true);
    for _k in 0..s.len() {
        if !p.due {
            return p;
        }
        one_more(s, &mut p);
    }
    p
}

/// The whole object, and the blanks behind it.
pub fn read(s: &[u8]) -> Progress
    ensures { result ≡ object_read s.now }
{
    let i = text::token(s, text::past(s, 0), b'{');
    if text::byte_at(s, i) == b'}' {
        return begun(text::token(s, i, b'}'), false);
    }
    members(s, i)
}

// Whether each leg has its value.
fn is_complete(slots: [Slot; 6]) -> bool
    ensures { result ≡ is_complete slots }
{
    slots[0].is_some()
        & slots[1].is_some()
        & slots[2].is_some()
        & slots[3].is_some()
        & slots[4].is_some()
        & slots[5].is_some()
}

/// Why a text of n bytes is refused.
pub fn admit(p: Progress, n: usize) -> Result<(), Refusal>
    ensures { number_or_0 result ≡ progress_refused p n }
{
    if p.due | (p.at != n) {
        return Err(Refusal::NoObject);
    }
    if p.outside {
        return Err(Refusal::Outside);
    }
    door::ensure(!p.strange & is_complete(p.slots), Refusal::OtherNames)
}

// A leg's foot: null where there is none yet.
fn foot_of(slot: Slot) -> OptionalFoot
    ensures { result ≡ foot_from slot }
{
    slot.flatten()
}

/// The pose of six legs in row order.
pub fn pose_of(slots: [Slot; 6]) -> OptionalLegPositions
    ensures { result ≡ pose_from slots }
{
    HexapodTypes::from_legs(slots).map(foot_of)
}
