//! The links that objects had before an event tied them, with room for them.
ghost use Rattle.std.specs.Prelude.{◌≡◌, ◌≤◌, ◌<◌, ◌+◌, ◌++◌, [], List, length, vec_capacity, option_copied, IfOk};
ghost use Rattle.std.specs.FinMap as map_of;
ghost use Rattle.gd_slots.specs.Slots.{board_of};
ghost use Rattle.gd_base.specs.declared.ranges.TheConstants.{MOST_MEMBERS};
ghost use Rattle.gd_base.specs.declared.ties.Tie.{Tie as TieValue};
ghost use Rattle.gd_model.specs.Undoing.{old_ties, with_old};

use crate::canvas::Canvas;
use gd_base::{Object, Stamp, Tie};
use std::alloc::{AllocError, Global};
use std::marker::Model;

/// The links that those had which an event tied. The room for them is taken at once, so that they are filled in
/// without memory.
#[derive(Drop)]
pub struct OldTies {
    items: Vec<Tie>,
}

impl Model for OldTies {
    ghost use Rattle.std.specs.Prelude.{◌≤◌, length, vec_capacity};
    ghost use Rattle.gd_base.specs.declared.ranges.TheConstants.{MOST_MEMBERS};
    ghost use Rattle.gd_canvas.specs.Olds.{OldTiesValue};

    ghost Value = { OldTiesValue };

    ghost view = { λ o. record { links = o.items.items; room = vec_capacity o.items } };

    ghost invariant = { λ o. length o.items.items ≤ MOST_MEMBERS };
}

impl OldTies {
    /// None, with room for that many. `AllocError` where memory ran out.
    pub(crate) fn new(alloc: Global, room: usize) -> Result<OldTies, AllocError>
        ensures links { IfOk result (λ olds. olds.links ≡ []) }
        ensures room { IfOk result (λ olds. room ≤ olds.room) }
    {
        let items = Vec::with_capacity(alloc, room)?;
        Ok(OldTies { items })
    }

    /// A copy with as much room. `AllocError` where memory ran out.
    pub(crate) fn copied(&self, alloc: Global) -> Result<OldTies, AllocError>
        ensures links { IfOk result (λ olds. olds.links ≡ self.now.links) }
        ensures room { IfOk result (λ olds. self.now.room ≤ olds.room) }
    {
        let mut items = Vec::with_capacity(alloc, self.items.capacity())?;
        items.extend_from_slice(self.items.as_slice())?;
        Ok(OldTies { items })
    }

    pub(crate) fn as_slice(&self) -> &[Tie]
        ensures links { result.now ≡ self.now.links }
        ensures few { length result.now ≤ MOST_MEMBERS }
    {
        self.items.as_slice()
    }

    pub(crate) fn clear(&mut self)
        ensures links { self.new.links ≡ [] }
        ensures room { self.new.room ≡ self.old.room }
    {
        self.items.clear();
    }

    /// Puts in the links in the drawing of those that are tied, in place of the ones that were there. It takes no
    /// memory.
    pub(crate) fn fill(&mut self, ties: &[Tie], canvas: &Canvas)
        requires room { length ties.now ≤ self.old.room }
        requires few { length ties.now ≤ MOST_MEMBERS }
        ensures links { self.new.links ≡ old_ties ties.now (map_of.get (board_of canvas.now)) }
        ensures few { length self.new.links ≤ length ties.now }
        ensures room { self.new.room ≡ self.old.room }
    {
        self.items.clear();
        push_olds(&mut self.items, ties, canvas);
    }
}

/// Puts the links of those that are tied into an empty vector with room for them.
fn push_olds(olds: &mut Vec<Tie>, ties: &[Tie], canvas: &Canvas)
    requires empty { olds.old.items ≡ [] }
    requires room { length ties.now ≤ vec_capacity olds.old }
    ensures olds { olds.new.items ≡ old_ties ties.now (map_of.get (board_of canvas.now)) }
    ensures few { length olds.new.items ≤ length ties.now }
    ensures capacity { vec_capacity olds.new ≡ vec_capacity olds.old }
{
    for tie in ties {
        push_old(olds, tie.id, canvas.get(tie.id));
    }
}

/// Puts the link of an object last, where it is there. There has to be room.
fn push_old(olds: &mut Vec<Tie>, id: Stamp, object: Option<&Object>)
    requires room { length olds.old.items < vec_capacity olds.old }
    ensures olds { (rest : List TieValue) → olds.new.items ++ rest
        ≡ olds.old.items ++ with_old id (option_copied object.entry) rest }
    ensures count { length olds.new.items ≤ length olds.old.items + 1 }
    ensures capacity { vec_capacity olds.new ≡ vec_capacity olds.old }
{
    if let Some(object) = object {
        olds.push_reserved(Tie {
            id,
            link: object.link,
        });
    }
}
