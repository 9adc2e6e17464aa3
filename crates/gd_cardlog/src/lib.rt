//! Logs of card boards: their operations, read and written.
#![tactic(auto)]

mod card_op;
mod cards;

pub use cards::Cards;
