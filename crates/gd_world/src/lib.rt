//! Worlds: the sites of a session and all mail between them, in one process.
#![tactic(auto)]

mod churning;
mod fault;
mod hearing;
mod laws;
mod mail;
mod member;
mod nowhere;
mod rehearsing;
mod replies;
mod scripting;
mod telling;
mod world;

pub use churning::churn;
pub use fault::WorldFault;
pub use laws::{churns_bring_all, churns_end_alike};
pub use rehearsing::rehearse;
pub use replies::Replies;
pub use world::World;
