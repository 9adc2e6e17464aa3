//! The lines that people type and read, as definitions, and the plain data that these share with the code.
#![tactic(auto)]

mod command;
mod look_name;
mod reply;

pub use command::{Command, LONGEST_LINE, ScriptLine, Turn};
pub use look_name::LookName;
pub use reply::Reply;
