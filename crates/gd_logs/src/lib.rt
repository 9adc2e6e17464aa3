//! Reading and writing a log.
#![tactic(auto)]

mod ahead;
mod front;
pub mod laws;
mod log;
mod misread;
mod pieces;
mod reader;
mod record;
mod stopped;
mod turns;
mod versions;
mod writer;

pub use front::{FaultAt, LogFront, read_front_of};
pub use log::{ReadError, WholeLog, read_log, read_log_of, read_whole_of};
pub use pieces::{CLOSED, Records, gated_of, put_gated};
pub use reader::{KindReader, LogReader};
pub use stopped::{LogFault, Stopped};
pub use writer::{AppendFault, KindWriter, LogWriter};
