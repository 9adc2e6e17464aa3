//! What the program can be asked to do: its commands, with their options.
#![tactic(auto)]

mod command;

pub use command::Command;
