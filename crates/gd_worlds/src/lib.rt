//! The reference runs of a whole session that is played in one process, by plain definitions: a rehearsal, and churn.
#![tactic(auto)]
