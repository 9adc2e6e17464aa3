ghost use Rattle.std.specs.Prelude.{◌≡◌};

use crate::content::{Content, Side};
use crate::ids::Ids;
use crate::label::Label;
use crate::look::Looks;
use crate::object::Ends;
use crate::shape::Shape;
use crate::stamp::Stamp;

/// A change of a drawing, over how labels, looks, the members of a group, heights, objects and ties are kept. `Edit` is
/// what a user asks for, with room for each part in itself; `gd_events` has what an event does, in the memory that it
/// needs.
#[derive(Drop)]
pub enum Op<L, K, M, R, O, T> {
    /// A new shape on top, with the event's stamp as its id.
    Create {
        kind: Shape,
        x: i32,
        y: i32,
        w: i32,
        h: i32,
        label: L,
    },
    Delete {
        id: Stamp,
    },
    /// The content goes into the object of that id, where it has the part.
    Set {
        id: Stamp,
        content: Content<L, K, R>,
    },
    /// A new group on top, with the event's stamp as its id. Each member that is there is linked to it, with its shift.
    Group {
        members: M,
    },
    /// A new connector on top, with the event's stamp as its id, between these ends.
    Connect {
        ends: Ends,
        label: L,
    },
    /// The object stands under that id as it was, where the id is absent, and each other object that is tied has its
    /// new link.
    Restore {
        id: Stamp,
        object: O,
        ties: T,
    },
    /// The object of that id goes, where it is there, and each other object that is tied has its new link.
    Disband {
        id: Stamp,
        ties: T,
    },
}

/// What isn't there: no user asks for an object or for ties as they were, as only an undo makes them.
#[derive(Clone, Copy)]
pub enum Nothing {}

/// A change that a user asks for. A place is where the object should appear; the groups that hold it are accounted for
/// when the edit becomes an event.
pub type Edit = Op<Label, Looks, Ids, Side, Nothing, Nothing>;

/// The operation behind a reference with other labels, looks, members, objects and ties, each made of those that are
/// there.
#[macro_export]
macro_rules! map_op {
    (
        $op:expr,
        $label:ident => $text:expr,
        $looks:ident => $look:expr,
        $members:ident => $all:expr,
        $object:ident => $whole:expr,
        $ties:ident => $links:expr
    ) => {
        match $op {
            $crate::Op::Create { kind, x, y, w, h, label: $label } => {
                let text = $text;
                $crate::Op::Create { kind: *kind, x: *x, y: *y, w: *w, h: *h, label: text }
            }
            $crate::Op::Delete { id } => $crate::Op::Delete { id: *id },
            $crate::Op::Set { id, content } => {
                let content =
                    $crate::map_content!(content, $label => $text, $looks => $look, rank => *rank);
                $crate::Op::Set { id: *id, content }
            }
            $crate::Op::Group { members: $members } => {
                let members = $all;
                $crate::Op::Group { members }
            }
            $crate::Op::Connect { ends, label: $label } => {
                let text = $text;
                $crate::Op::Connect { ends: *ends, label: text }
            }
            $crate::Op::Restore { id, object: $object, ties: $ties } => {
                let object = $whole;
                let ties = $links;
                $crate::Op::Restore { id: *id, object, ties }
            }
            $crate::Op::Disband { id, ties: $ties } => {
                let ties = $links;
                $crate::Op::Disband { id: *id, ties }
            }
        }
    };
}

impl Edit {
    pub fn copy(&self) -> Self
        ensures { result ≡ self.now }
    {
        crate::map_op!(self,
            label => label.copy(),
            looks => *looks,
            members => members.copy(),
            object => *object,
            ties => *ties)
    }
}
