//! Ties that an operation says, with room for the links that are there.
ghost use Rattle.std.specs.Prelude.{◌≡◌, ◌≤◌, [], length, IfOk};
ghost use Rattle.std.specs.FinMap as map_of;
ghost use Rattle.gd_base.specs.declared.ranges.TheConstants.{MOST_MEMBERS};
ghost use Rattle.gd_slots.specs.Slots.{board_of};
ghost use Rattle.gd_model.specs.Objects.{own_ties};
ghost use Rattle.gd_model.specs.Undoing.{old_ties};
ghost use Rattle.gd_canvas.specs.Touches.{id_at};

use crate::canvas::Canvas;
use crate::olds::OldTies;
use gd_base::{Kind, Stamp, Tie, Ties};
use gd_events::TieList;
use std::alloc::{AllocError, Global};
use std::marker::Model;

/// Ties that an operation says, and the links that those had when it was applied.
#[derive(Drop)]
pub struct Tied {
    ties: TieList,
    olds: OldTies,
}

impl Model for Tied {
    ghost use Rattle.std.specs.Prelude.{◌≤◌, length};
    ghost use Rattle.gd_canvas.specs.Olds.{TiedValue};

    ghost Value = { TiedValue };

    ghost view = { λ t. record { ties = t.ties; olds = t.olds.links } };

    ghost invariant = { λ t. (length t.ties ≤ t.olds.room)
        × (length t.olds.links ≤ length t.ties) };
}

impl Tied {
    /// These ties, of an operation that isn't applied. `AllocError` where there is no memory for the links.
    pub(crate) fn new(alloc: Global, ties: TieList) -> Result<Box<Tied>, AllocError>
        ensures { IfOk result (λ tied. tied.value.ties ≡ ties) }
    {
        let olds = OldTies::new(alloc, ties.as_slice().len())?;
        Ok(Box::new(alloc, Tied { ties, olds })?)
    }

    /// A copy with room of its own for the links. `AllocError` where memory ran out.
    pub(crate) fn copied(&self, alloc: Global) -> Result<Box<Tied>, AllocError>
        ensures { IfOk result (λ tied. tied.value ≡ self.now) }
    {
        let ties = self.ties.copy(alloc)?;
        let olds = self.olds.copied(alloc)?;
        Ok(Box::new(alloc, Tied { ties, olds })?)
    }

    pub(crate) fn ties(&self) -> &[Tie]
        ensures ties { result.now ≡ self.now.ties }
        ensures few { length result.now ≤ MOST_MEMBERS }
    {
        self.ties.as_slice()
    }

    /// A copy of the ties. `AllocError` where memory ran out.
    pub(crate) fn copied_ties(&self, alloc: Global) -> Result<TieList, AllocError>
        ensures { IfOk result (λ ties. ties ≡ self.now.ties) }
    {
        self.ties.copy(alloc)
    }

    /// The links that those had which are tied.
    pub(crate) fn olds(&self) -> &[Tie]
        ensures { result.now ≡ self.now.olds }
    {
        self.olds.as_slice()
    }

    /// A copy of those links. `AllocError` where memory ran out.
    pub(crate) fn copied_olds(&self, alloc: Global) -> Result<TieList, AllocError>
        ensures { IfOk result (λ olds. olds ≡ self.now.olds) }
    {
        tie_list(alloc, self.olds.as_slice())
    }

    /// Keeps the links in the drawing of those that are tied. It takes no memory.
    pub(crate) fn fill(&mut self, canvas: &Canvas)
        ensures ties { self.new.ties ≡ self.old.ties }
        ensures olds { self.new.olds ≡ old_ties self.old.ties (map_of.get (board_of canvas.now)) }
    {
        self.olds.fill(self.ties.as_slice(), canvas);
    }

    /// The same where an object of that kind gives the ties, and else that nothing had a link. It takes no memory.
    pub(crate) fn fill_of(&mut self, kind: Kind, canvas: &Canvas)
        ensures ties { self.new.ties ≡ self.old.ties }
        ensures olds { self.new.olds
            ≡ old_ties (own_ties kind self.old.ties) (map_of.get (board_of canvas.now)) }
    {
        match kind {
            Kind::Group => self.fill(canvas),
            Kind::Shape(_) | Kind::Connector => self.clear(),
        }
    }

    /// Keeps that nothing had a link. There are no more of the links than ties.
    pub(crate) fn clear(&mut self)
        ensures ties { self.new.ties ≡ self.old.ties }
        ensures olds { self.new.olds ≡ [] }
        ensures few { length self.old.olds ≤ length self.old.ties }
    {
        self.olds.clear();
    }
}

/// The ties that an object of that kind gives: only a group ties others.
pub fn own_ties(kind: Kind, ties: &[Tie]) -> &[Tie]
    ensures ties { result.now ≡ own_ties kind ties.now }
    ensures few { length result.now ≤ length ties.now }
{
    match kind {
        Kind::Group => ties,
        Kind::Shape(_) | Kind::Connector => &[],
    }
}

/// A copy of the ties, in as much memory as they need. `AllocError` where memory ran out.
pub fn tie_list(alloc: Global, ties: &[Tie]) -> Result<TieList, AllocError>
    requires { length ties.now ≤ MOST_MEMBERS }
    ensures { IfOk result (λ list. list ≡ ties.now) }
{
    let mut copied = Ties::new();
    for tie in ties {
        copied.push(*tie);
    }
    TieList::new(alloc, &copied)
}

/// The id of what the tie at that place is of. None past the last one.
pub fn id_at(ties: &[Tie], place: usize) -> Option<Stamp>
    ensures { result ≡ id_at ties.now place }
{
    Some(ties.get(place)?.id)
}
