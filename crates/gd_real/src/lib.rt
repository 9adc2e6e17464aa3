//! The devices of the real world: standard input and output, a file, a socket. Each counts its calls that failed, and
//! tells nothing of its content.
#![tactic(auto)]

mod file;
mod held;
mod input;
mod look;
mod output;
mod socket;
mod synced;

pub use file::FileJournal;
pub use input::StandardInput;
pub use look::{FileState, look_at};
pub use output::StandardOutput;
pub use socket::SocketLink;
