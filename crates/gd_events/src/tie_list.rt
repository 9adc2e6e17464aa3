//! Ties in as much memory as they need.
ghost use Rattle.std.specs.Prelude.{◌≡◌, ◌≤◌, length, IfOk};
ghost use Rattle.gd_base.specs.Typed.{AreTied};
ghost use Rattle.gd_base.specs.declared.ranges.TheConstants.{MOST_MEMBERS};

use gd_base::{Tie, Ties};
use std::alloc::{AllocError, Global};
use std::marker::Model;

/// At most `MOST_MEMBERS` ties, in as much memory as they need. Contracts see their list.
#[derive(Drop)]
pub struct TieList {
    items: Vec<Tie>,
}

impl Model for TieList {
    ghost use Rattle.std.specs.Prelude.{◌≤◌, List, length};
    ghost use Rattle.gd_base.specs.declared.ties.Tie.{Tie};

    ghost Value = { List Tie };

    ghost use Rattle.gd_base.specs.Typed.{AreTied};
    ghost use Rattle.gd_base.specs.declared.ranges.TheConstants.{MOST_MEMBERS};

    ghost view = { λ l. l.items.items };

    ghost invariant = { λ l. (length l.items.items ≤ MOST_MEMBERS) × AreTied l.items.items };
}

impl TieList {
    /// A copy of the ties. `AllocError` where memory ran out.
    pub fn new(alloc: Global, ties: &Ties) -> Result<TieList, AllocError>
        ensures { IfOk result (λ list. list ≡ ties.now) }
    {
        let items = Vec::from_slice(alloc, ties.as_slice())?;
        Ok(TieList { items })
    }

    pub fn as_slice(&self) -> &[Tie]
        ensures items { result.now ≡ self.now }
        ensures few { length result.now ≤ MOST_MEMBERS }
        ensures tied { AreTied result.now }
    {
        self.items.as_slice()
    }

    /// A copy of the list. `AllocError` where memory ran out.
    pub fn copy(&self, alloc: Global) -> Result<TieList, AllocError>
        ensures { IfOk result (λ list. list ≡ self.now) }
    {
        let items = Vec::from_slice(alloc, self.items.as_slice())?;
        Ok(TieList { items })
    }
}
