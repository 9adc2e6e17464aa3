//! What an edit comes to over a drawing.
#![tactic(auto)]

mod faults;
mod groups;
mod judging;

pub use faults::EditFault;
pub use judging::judge;
