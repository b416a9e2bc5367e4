// The walk printer as a function on bytes: what is printed for a line, and a printer that is fed with parts of its input.
#![tactic(auto)]

pub mod asks;
pub mod block;
pub mod printer;
mod stretch;
