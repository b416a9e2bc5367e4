// What a line asks for that was cut between two reads.
ghost use Rattle.std.specs.Prelude.{◌≡◌};
ghost use Rattle.lines.specs.Carry.{held, keep};
ghost use Rattle.listing.specs.Asks.{asks};

use lines::carry::Carry;
use lines::record::Walk;
use lines::{carry, record};

/// The record of a line that was carried, `None` where it is no record.
#[tactic(auto, unfolding(crate::specs::Asks::asks))]
pub fn asked(c: Carry) -> Option<Walk>
    ensures { result ≡ asks (held c) }
{
    match c {
        Carry::Whole(front) => record::record_of(front.as_slice()),
        Carry::Overlong => None,
    }
}

/// The record of the unfinished line with the bytes that finish it. Where nothing is kept they are read as they stand.
pub fn finished(c: Carry, s: &[u8]) -> Option<Walk>
    ensures { result ≡ asks (keep (held c) s.now) }
{
    if carry::has_begun(c) {
        asked(carry::more(c, s))
    } else {
        record::record_of(s)
    }
}
