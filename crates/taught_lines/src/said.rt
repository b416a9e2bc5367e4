// What is answered: that a call is done, or the ids.
use fields::Answer;
use hopper::taught_poses::Listed;

/// Nothing stands behind `ok`.
pub fn done(_to: &mut Answer, _done: ()) {}

/// How many ids, in decimal, and that many.
pub fn listed(to: &mut Answer, listed: Listed) {
    let ids = &listed.ids[..listed.len.min(64)];
    to.decimal(ids.len() as u32);
    for id in ids {
        to.short(*id);
    }
}
