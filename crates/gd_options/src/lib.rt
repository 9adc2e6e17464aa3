//! What the options of the commands can ask for.
#![tactic(auto)]

mod churn;
mod format;

pub use churn::CHURN_STEPS;
pub use format::Format;
