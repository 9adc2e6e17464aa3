//! What the program does, over any input, output, journal and link: `run`, whose contract is the headline.
#![tactic(auto)]

pub mod laws;
mod running;

pub use running::run;
