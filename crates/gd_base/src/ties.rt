ghost use Rattle.std.specs.Prelude.{◌≡◌, ◌≤◌, ◌++◌, ◌∷◌, [], length, nat_lt, if◌then◌else◌};
ghost use Rattle.gd_base.specs.Typed.{AreTied};
ghost use Rattle.gd_base.specs.declared.ranges.TheConstants.{MOST_MEMBERS};

use crate::object::Link;
use crate::ranges::MOST_MEMBERS;
use crate::stamp::Stamp;
use arrayvec::ArrayVec;
use std::marker::Model;

/// The link that the object of that id is given: to a group, or none.
#[derive(Clone, Copy, Debug, Default, PartialEq, Eq)]
pub struct Tie {
    pub id: Stamp,
    pub link: Option<Link>,
}

/// At most `MOST_MEMBERS` ties, which contracts see as their list.
#[derive(Drop)]
pub struct Ties {
    items: ArrayVec<Tie, MOST_MEMBERS>,
}

impl Model for Ties {
    ghost use Rattle.std.specs.Prelude.{List};
    ghost use Rattle.gd_base.specs.declared.ties.Tie.{Tie};

    ghost Value = { List Tie };

    ghost use Rattle.gd_base.specs.Typed.{AreTied};

    ghost view = { λ l. l.items.items };

    ghost invariant = { λ l. AreTied l.items.items };
}

impl Ties {
    pub fn new() -> Self
        ensures { result ≡ [] }
    {
        Ties {
            items: ArrayVec::new(),
        }
    }

    pub fn as_slice(&self) -> &[Tie]
        ensures items { result.now ≡ self.now }
        ensures few { length result.now ≤ MOST_MEMBERS }
        ensures tied { AreTied result.now }
    {
        self.items.as_slice()
    }

    /// Puts the tie last. False exactly where there are `MOST_MEMBERS` already, and then nothing changes.
    pub fn push(&mut self, tie: Tie) -> bool
        ensures room { result ≡ nat_lt (length self.old) MOST_MEMBERS }
        ensures items { self.new
            ≡ (if nat_lt (length self.old) MOST_MEMBERS then self.old ++ tie ∷ [] else self.old) }
    {
        // Brings the types within a `Tie` into this proof; no effect at run time.
        let none: Option<Link> = None;
        let _none = none.is_none();
        self.items.try_push(tie).is_ok()
    }
}
