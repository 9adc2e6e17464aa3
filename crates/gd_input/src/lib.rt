//! The lines of an input, out of any pieces that a source hands out.
#![tactic(auto)]

mod next;
mod reader;
mod scan;
mod typed;

pub use gd_base::LineFault;
pub use gd_lines::{Command, ScriptLine};
pub use next::Next;
pub use reader::LineReader;
pub use typed::TypedLine;
