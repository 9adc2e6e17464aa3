//! Slots by stamp: what a document keeps its things in, whatever they are.
#![tactic(auto)]

mod changes;
pub mod laws;
mod slot;
mod slots;

pub use changes::Change;
pub use slot::{change_slot, fill_slot};
pub use slots::Slots;
