//! JSON of drawings and of events, as definitions of bytes, and these computed on worked rows.
#![tactic(auto)]

pub mod rows;
