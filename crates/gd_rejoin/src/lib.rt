//! Going on from a journal: the site that holds the events of its log, and a writer that stands at the log's closing
//! gate.
#![tactic(auto)]

mod contents;
mod fault;
mod logs;
mod resuming;

pub use fault::ResumeFault;
pub use logs::log_for;
pub use resuming::{resume, site_of};
