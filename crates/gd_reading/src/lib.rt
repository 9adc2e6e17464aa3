//! What the commands that read a log have in common: what they print of how its events went, and of bytes that are no
//! log.
#![tactic(auto)]

mod counting;
mod refusing;

pub use counting::write_counts;
pub use refusing::refuse;
