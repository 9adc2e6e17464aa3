//! A drawing, and the events of a log, as one line of JSON.
#![tactic(auto)]

mod array;
mod events;
mod looks;
mod objects;
mod parts;
mod picture;
mod texts;
mod values;

pub use array::JsonText;
pub use events::events_json;
pub use picture::picture_json;
