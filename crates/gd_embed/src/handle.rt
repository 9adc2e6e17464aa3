ghost use Rattle.std.specs.Prelude.{◌≡◌, Some, None, Option};
ghost use Rattle.gd_embed.specs.declared.held.Held.{Held as HeldValue};
ghost use Rattle.gd_embed.specs.Live.{IsLive};

mod parts;

use crate::held::Held;
use parts::Parts;
use std::alloc::Global;
use std::marker::Model;
use std::ptr;

/// What C holds of a member.
#[repr(C)]
#[derive(Drop)]
pub struct Handle {
    at: *mut u8,
    alloc: Global,
    pub ghost value: { Option HeldValue },
}

impl Model for Handle {
    ghost use Rattle.gd_embed.specs.Live.{owned_by};

    ghost also_owns = { λ l. owned_by l.alloc l.at l.value };
}

impl Handle {
    pub fn empty(alloc: Global) -> Handle
        ensures { result.value ≡ None }
    {
        Handle {
            at: ptr::null_mut(),
            alloc,
        }
    }

    pub fn of(b: Box<Held>) -> Handle
        ensures { result.value ≡ Some b.value }
    {
        Handle::of_parts(Parts::of(b))
    }

    fn of_parts(parts: Parts<Held, Global>) -> Handle
        ensures { result.value ≡ Some parts.value }
    {
        let Parts { ptr, alloc } = parts;
        Handle {
            at: ptr as *mut u8,
            alloc,
        }
    }

    pub fn into_box(self) -> Box<Held>
        requires { IsLive self.value }
        ensures { self.value ≡ Some result.value }
    {
        self.into_parts().into_box()
    }

    fn into_parts(self) -> Parts<Held, Global>
        requires { IsLive self.value }
        ensures { self.value ≡ Some result.value }
    {
        let Handle { at, alloc } = self;
        Parts {
            ptr: at as *mut Held,
            alloc,
        }
    }
}
