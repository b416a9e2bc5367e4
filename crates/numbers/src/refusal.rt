// Why an answer is refused: one table for all rooms, since the documents number refusals in one.
ghost use Rattle.std.specs.Prelude.{◌≡◌};
ghost use Rattle.numbers.specs.Refusals.{number_of};

use std::error::Error;
use std::fmt;

/// Why an answer is refused. Where several reasons apply, an entry's contract says which is given.
#[derive(Clone, Copy, Debug, PartialEq, Eq, PartialOrd, Ord, Hash)]
pub enum Refusal {
    /// 1: a float is NaN or infinite.
    NotFinite,
    /// 2: a number lies outside the table of permitted numbers.
    Outside,
    /// 3: an elapsed time, a period or a step time lies outside the table.
    Time,
    /// 4: a mask names more than the six legs.
    Mask,
    /// 5: a lent row is not as long as it has to be.
    Count,
    /// 6: a leg would be turned to 90 degrees or more.
    PastPositive,
    /// 7: a line is no record.
    NoRecord,
    /// 8: a leg would be turned to -90 degrees or less.
    PastNegative,
    /// 9: a foot is too far for its leg.
    TooFar,
    /// 10: a foot is too near for its leg.
    TooNear,
    /// 11: a store has no place for one pose more.
    StoreFull,
    /// 12: no pose stands under an id.
    NoSuchId,
    /// 13: a text is no object of feet.
    NoObject,
    /// 14: a text's names are not those of the six legs.
    OtherNames,
    /// 15: 0 is no id.
    IdZero,
    /// 16: a row of bytes is no conducted state.
    NoState,
    /// 17: a room is none that a run of calls can have left.
    NoRoom,
}

impl Refusal {
    /// The number that hosts, listings and operation lines know it by, 1 to 17.
    pub fn number(self) -> u32
        ensures { result ≡ number_of self }
    {
        match self {
            Refusal::NotFinite => 1,
            Refusal::Outside => 2,
            Refusal::Time => 3,
            Refusal::Mask => 4,
            Refusal::Count => 5,
            Refusal::PastPositive => 6,
            Refusal::NoRecord => 7,
            Refusal::PastNegative => 8,
            Refusal::TooFar => 9,
            Refusal::TooNear => 10,
            Refusal::StoreFull => 11,
            Refusal::NoSuchId => 12,
            Refusal::NoObject => 13,
            Refusal::OtherNames => 14,
            Refusal::IdZero => 15,
            Refusal::NoState => 16,
            Refusal::NoRoom => 17,
        }
    }
}

impl fmt::Display for Refusal {
    fn fmt<W: fmt::Write>(&self, f: &mut fmt::Formatter<W>) -> fmt::Result {
        match self {
            Refusal::NotFinite => write!(f, "a number is NaN or infinite"),
            Refusal::Outside => write!(f, "a number lies outside the permitted range"),
            Refusal::Time => write!(f, "a time lies outside the permitted range"),
            Refusal::Mask => write!(f, "a mask is above 63"),
            Refusal::Count => write!(f, "a row has another length than it must have"),
            Refusal::PastPositive => write!(f, "a leg would be turned to 90 degrees or more"),
            Refusal::NoRecord => write!(f, "a line is no record"),
            Refusal::PastNegative => write!(f, "a leg would be turned to -90 degrees or less"),
            Refusal::TooFar => write!(f, "a foot is too far for its leg"),
            Refusal::TooNear => write!(f, "a foot is too near for its leg"),
            Refusal::StoreFull => write!(f, "the store is full"),
            Refusal::NoSuchId => write!(f, "no pose stands under the id"),
            Refusal::NoObject => write!(f, "the text is no object of feet"),
            Refusal::OtherNames => write!(f, "the names are not those of the six legs"),
            Refusal::IdZero => write!(f, "0 is no id"),
            Refusal::NoState => write!(f, "the bytes are no conducted state"),
            Refusal::NoRoom => write!(f, "the bytes are no store of poses"),
        }
    }
}

impl Error for Refusal {}
