use crate::content::Held;
use gd_base::Stamp;
use gd_events::{BoxedObject, TieList};

/// What an operation does. The definitions and the code go by these three forms.
#[derive(Drop)]
pub enum Form {
    /// The content goes into the object of that id, where it has the part.
    Sets(Stamp, Held),
    /// The object stands under that id, where the id is absent, and each other object that is tied has its new link.
    Puts(Stamp, BoxedObject, TieList),
    /// The object of that id goes, where it is there, and each other object that is tied has its new link.
    Takes(Stamp, TieList),
}

/// What stood where an event was applied: the form that takes it back, or None where the event had no effect.
pub type Before = Option<Form>;
