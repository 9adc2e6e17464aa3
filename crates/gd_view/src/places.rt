//! Where an object is shown.

use gd_base::{Kind, Place, Stamp};

/// An object as it is shown.
#[derive(Clone, Copy, Debug, PartialEq, Eq)]
pub struct Shown {
    /// The group that it is shown in, if there is one.
    pub parent: Option<Stamp>,
    /// Its own place, moved by all that stands above it.
    pub at: Place,
    /// By how much it is moved.
    pub above: Place,
    pub kind: Kind,
}
