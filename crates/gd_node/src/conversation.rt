//! A node as its lines see it.

use crate::member::Member;
use crate::waiting::Waiting;

/// A node as its lines see it: its member, and the lines of the gesture that has begun, if one has.
#[derive(Drop)]
pub(crate) struct Conversation {
    pub(crate) member: Member,
    pub(crate) waiting: Option<Waiting>,
}
