//! Snapshots of drawings: their bytes, as definitions and as code, and what holds of them.
#![tactic(auto)]

mod known;
pub mod laws;

pub use known::Known;
