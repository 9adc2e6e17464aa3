//! Viewers: someone who is no member shows a session's drawing, from a snapshot and the frames behind it.
#![tactic(auto)]

mod opening;
mod viewer;

pub use viewer::Viewer;
