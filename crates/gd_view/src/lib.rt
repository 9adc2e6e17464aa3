//! What of a drawing is shown and where, its picture in printed order, and its text.
#![tactic(auto)]

mod chains;
mod firsts;
pub mod ids;
mod items;
mod known;
mod levels;
mod listing;
mod picture;
mod places;
mod seen;
mod sums;
mod walk;
mod write;

pub use gd_base::Place;
use gd_base::SESSION_EVENTS;
pub use items::item;
pub use picture::Picture;
pub use places::Shown;
pub use seen::{is_top, shown};
pub use write::write_text;

/// How many objects a drawing may have.
pub const OBJECTS: u32 = SESSION_EVENTS;
