//! Snapshots written to an output and read from an input.
#![tactic(auto)]

mod ahead;
mod fault;
mod fields;
mod head;
mod judged;
mod parts;
mod piece;
mod pieces;
mod reader;
mod reading;
mod snapshot;
mod writing;

pub use ahead::Ahead;
pub use fault::SnapshotFault;
pub use gd_base::ViewWhy;
pub use gd_snapshots::Known;
pub use reading::{read_front, read_snapshot};
pub use snapshot::{KnownList, Objects, PlacedList, Snapshot};
pub use writing::write_snapshot;
