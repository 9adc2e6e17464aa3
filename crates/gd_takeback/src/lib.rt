//! Taking one's own edits back, and doing them again: a site's edits go through a `TakeBack`, which keeps what takes
//! the last of them back.
#![tactic(auto)]

mod back_list;
mod gesture;
mod take_back;

pub use gesture::Gesture;
pub use take_back::{BackFault, TakeBack};
