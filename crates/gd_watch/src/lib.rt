//! The commands `snapshot` and `view`: a drawing handed on without its history, and looked at.
#![tactic(auto)]

mod ending;
mod items;
mod showing;
mod snapshotting;
mod taking;
mod viewing;

pub use snapshotting::snapshot;
pub use viewing::view;
