ghost use Rattle.std.specs.Prelude.{◌≡◌, IfOk};
ghost use Rattle.gd_base.specs.Kinds.{are_ends_of, is_label_of, most_ties};
ghost use Rattle.gd_base.specs.Whole.{labelled};

use crate::look::Look;
use crate::ranges::MOST_MEMBERS;
use crate::rank::Rank;
use crate::shape::Shape;
use crate::stamp::Stamp;
use crate::text::{Text, is_title};
use std::alloc::AllocError;

/// What an object is.
#[derive(Clone, Copy, Debug, PartialEq, Eq)]
pub enum Kind {
    Shape(Shape),
    Group,
    /// It has no place and no size of its own: it is shown between its ends.
    Connector,
}

impl Kind {
    /// How many others are tied at most where an object of this kind is restored.
    pub fn most_ties(self) -> usize
        ensures { result ≡ most_ties self }
    {
        match self {
            Kind::Group => MOST_MEMBERS,
            Kind::Shape(_) | Kind::Connector => 0,
        }
    }

    /// Whether an object of this kind may have that label: the one of a group is a title.
    pub fn has_label(self, label: &Text) -> bool
        ensures { result ≡ is_label_of self label.now }
    {
        match self {
            Kind::Group => is_title(label),
            Kind::Shape(_) | Kind::Connector => true,
        }
    }

    /// Whether an object of this kind may have these ends, or none: a connector has some.
    pub fn has_ends(self, ends: Option<Ends>) -> bool
        ensures { result ≡ are_ends_of self ends }
    {
        match self {
            Kind::Connector => ends.is_some(),
            Kind::Shape(_) | Kind::Group => true,
        }
    }
}

/// The objects between which a connector is shown.
#[derive(Clone, Copy, Debug, PartialEq, Eq)]
pub struct Ends {
    pub from: Stamp,
    pub to: Stamp,
}

/// The group that an object belongs to, with the object's shift.
#[derive(Clone, Copy, Debug, PartialEq, Eq)]
pub struct Link {
    pub parent: Stamp,
    pub dx: i32,
    pub dy: i32,
}

/// An object, with its place in the stack, over how its label is kept. Its id is the key under which it is kept. The
/// place and the size of a connector are 0 and mean nothing.
#[derive(Drop)]
pub struct Object<L = Text> {
    pub kind: Kind,
    pub x: i32,
    pub y: i32,
    pub w: i32,
    pub h: i32,
    pub look: Look,
    pub label: L,
    /// Of a connector.
    pub ends: Option<Ends>,
    pub link: Option<Link>,
    pub dissolved: bool,
    pub rank: Rank,
}

impl Object {
    /// A copy with a handle to the same label. It takes no memory; `AllocError` where there are as many handles as can be
    /// counted.
    pub fn share(&self) -> Result<Self, AllocError>
        ensures { IfOk result (λ object. object ≡ self.now) }
    {
        let label = self.label.share()?;
        Ok(self.with(label))
    }

    /// A copy with that label, which is its own.
    pub fn with(&self, label: Text) -> Self
        ensures { result ≡ labelled self.now label }
    {
        Object {
            kind: self.kind,
            x: self.x,
            y: self.y,
            w: self.w,
            h: self.h,
            look: self.look,
            label,
            ends: self.ends,
            link: self.link,
            dissolved: self.dissolved,
            rank: self.rank,
        }
    }
}
