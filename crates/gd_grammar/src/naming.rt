//! What names an object.
use gd_base::Stamp;

/// An operation that says which links an object has: the stamp of its event, and the object's id.
#[derive(Clone, Copy, Debug, PartialEq, Eq)]
pub struct Naming {
    pub stamp: Stamp,
    pub id: Stamp,
}
