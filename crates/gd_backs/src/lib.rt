//! What holds of taking gestures back, over the definitions alone.
#![tactic(auto)]

pub mod laws;
