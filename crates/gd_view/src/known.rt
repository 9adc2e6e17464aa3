//! The table of what stands above the objects.

ghost use Rattle.std.specs.Prelude.{◌≡◌, None, IfOk, OnOk, if◌then◌else◌};
ghost use Rattle.gd_base.specs.Stamps as stamps;
ghost use Rattle.gd_base.specs.Stamps.{is_same};
ghost use Rattle.gd_view.specs.Sums.{known};

use gd_base::Stamp;
use gd_model::Above;
use indexmap::IndexMap;
use std::alloc::{AllocError, Global};

/// What stands above the objects whose sums are known. A hidden one has nothing.
#[derive(Drop)]
pub(crate) struct Known {
    sums: IndexMap<Stamp, Option<Above>>,
}

impl Known {
    /// An empty table with room for n objects.
    pub(crate) fn with_room(alloc: Global, n: usize) -> Result<Known, AllocError>
        ensures { IfOk result (λ table. (q : stamps.Stamp) → known table q ≡ None) }
    {
        Ok(Known {
            sums: IndexMap::with_capacity(alloc, n)?,
        })
    }

    pub(crate) fn get(&self, id: Stamp) -> Option<Above>
        ensures { result ≡ known self.now id }
    {
        match self.sums.get(&id) {
            Some(sum) => *sum,
            None => None,
        }
    }

    pub(crate) fn put(&mut self, id: Stamp, sum: Option<Above>) -> Result<(), AllocError>
        ensures { OnOk result ((q : stamps.Stamp) → known self.new q
            ≡ (if is_same q id then sum else known self.old q)) }
    {
        self.sums.insert(id, sum)?;
        Ok(())
    }
}
