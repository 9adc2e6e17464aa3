//! The snapshot of a site.
#![tactic(auto)]

mod base;
mod capture;
mod kept;
mod known;
mod numbers;
mod placed;

pub use capture::snapshot_of;
