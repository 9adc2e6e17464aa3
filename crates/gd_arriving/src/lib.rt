//! The one way in which events arrive at a document, one after another, and in which what comes of them is counted.
#![tactic(auto)]

mod arriving;
mod tally;

pub use arriving::{arrived, arrived_from};
pub use tally::Tally;
