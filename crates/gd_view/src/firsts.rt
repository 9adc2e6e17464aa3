//! The first item of each group, by its place.

ghost use Rattle.std.specs.Prelude.{◌≡◌, None, Some, Option, IfOk, OnOk, if◌then◌else◌};
ghost use Rattle.gd_base.specs.Stamps as stamps;
ghost use Rattle.gd_view.specs.Walk.{same_parent, first_in};

use gd_base::Stamp;
use indexmap::IndexMap;
use std::alloc::{AllocError, Global};

/// The place of the first top item, and of the first item of each group.
#[derive(Drop)]
pub(crate) struct Firsts {
    top: Option<usize>,
    groups: IndexMap<Stamp, usize>,
}

impl Firsts {
    pub(crate) fn new(alloc: Global) -> Firsts
        ensures { (q : Option stamps.Stamp) → first_in result q ≡ None }
    {
        Firsts {
            top: None,
            groups: IndexMap::new(alloc),
        }
    }

    pub(crate) fn get(&self, parent: Option<Stamp>) -> Option<usize>
        ensures { result ≡ first_in self.now parent }
    {
        match parent {
            None => self.top,
            Some(parent) => self.groups.get(&parent).copied(),
        }
    }

    /// Makes an item the first of its group, and gives the one that was.
    pub(crate) fn put(
        &mut self,
        parent: Option<Stamp>,
        place: usize,
    ) -> Result<Option<usize>, AllocError>
        ensures old { IfOk result (λ old. old ≡ first_in self.old parent) }
        ensures new { OnOk result ((q : Option stamps.Stamp) → first_in self.new q
            ≡ (if same_parent q parent then Some place else first_in self.old q)) }
    {
        match parent {
            None => {
                let old = self.top;
                self.top = Some(place);
                Ok(old)
            }
            Some(parent) => Ok(self.groups.insert(parent, place)?),
        }
    }
}
