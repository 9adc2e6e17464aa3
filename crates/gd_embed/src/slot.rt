//! What C has: a member, or none.
ghost use Rattle.std.specs.Prelude.{◌≡◌, None, Some, MatchOption};
ghost use Rattle.std.specs.Option.{is_some};

use crate::answers::Fault;
use crate::handle::Handle;
use crate::held::Held;
use std::alloc::Global;
use std::mem;

/// A member, or none, as C has it: it says whether there is one.
#[repr(C)]
#[derive(Drop)]
pub struct Slot {
    pub handle: Handle,
    pub is_live: bool,
    pub ghost is_said: { is_some handle.value ≡ is_live },
}

impl Slot {
    ghost use Rattle.gd_embed.specs.Calls.{LentIs};

    /// One that holds nothing.
    pub fn empty(alloc: Global) -> Slot
        ensures { result.handle.value ≡ None }
    {
        Slot {
            handle: Handle::empty(alloc),
            is_live: false,
        }
    }

    /// One that holds this.
    fn of(held: Box<Held>) -> Slot
        ensures { result.handle.value ≡ Some held.value }
    {
        Slot {
            handle: Handle::of(held),
            is_live: true,
        }
    }

    /// What it holds, if anything.
    fn into_box(self) -> Option<Box<Held>>
        ensures { MatchOption result (self.handle.value ≡ None)
            (λ held. self.handle.value ≡ Some held.value) }
    {
        if self.is_live {
            Some(self.handle.into_box())
        } else {
            None
        }
    }

    /// Whether it holds something.
    pub fn holds(&self) -> bool
        ensures { result ≡ is_some self.now.handle.value }
    {
        self.is_live
    }

    /// Takes out what it holds, if anything, and leaves it empty.
    pub fn take(&mut self, alloc: Global) -> Option<Box<Held>>
        ensures taken { MatchOption result (self.old.handle.value ≡ None)
            (λ held. self.old.handle.value ≡ Some held.value) }
        ensures empty { self.new.handle.value ≡ None }
    {
        mem::replace(self, Slot::empty(alloc)).into_box()
    }

    /// Puts it there, and drops what was there.
    pub fn put(&mut self, held: Box<Held>)
        ensures { self.new.handle.value ≡ Some held.value }
    {
        *self = Slot::of(held);
    }

    /// Takes out a member that isn't spent, to be put back. `Empty` where there is none, and `Spent` where it is, and
    /// then it stays.
    pub fn lend(&mut self, alloc: Global) -> Result<Box<Held>, Fault>
        ensures { LentIs self.old.handle.value result self.new.handle.value }
    {
        let Some(held) = self.take(alloc) else {
            return Err(Fault::Empty);
        };
        if held.member.is_spent() {
            self.put(held);
            return Err(Fault::Spent);
        }
        Ok(held)
    }
}
