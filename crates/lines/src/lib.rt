// Text on slices: hex and decimal digits, fields, the walk printer's record and its listing lines, a line that is cut between two reads.
#![tactic(auto)]

pub mod carry;
pub mod compared;
pub mod digits;
pub mod fields;
mod front;
pub mod listed;
mod put;
pub mod record;
