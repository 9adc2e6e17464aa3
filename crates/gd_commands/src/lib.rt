//! What the words of a command line ask for. `clap` reads them, as one simple command for each name; no caller sees it.
#![tactic(auto)]

mod board;
mod churn;
mod command;
mod fault;
mod laws;
mod lone;
mod matched;
mod node;
mod number;
mod rehearse;
mod replay;

pub use command::read_command;
pub use fault::CommandFault;
pub use gd_asked::Command;
pub use gd_options::Format;
pub use laws::{plain_words_are_taken, what_is_asked_is_in_range, written_words_are_met};
