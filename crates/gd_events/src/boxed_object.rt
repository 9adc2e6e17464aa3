//! Objects in boxes.
ghost use Rattle.std.specs.Prelude.{◌≡◌, IfOk};

use gd_base::Object;
use std::alloc::{AllocError, Global};
use std::marker::Model;

/// An object in a box, which contracts see as the object.
#[derive(Drop)]
pub struct BoxedObject {
    kept: Box<Object>,
}

impl Model for BoxedObject {
    ghost use Rattle.gd_base.specs.Whole.{Object};

    ghost Value = { Object };

    ghost use Rattle.gd_base.specs.Typed.{IsObject};

    ghost view = { λ b. b.kept.value };

    ghost invariant = { λ b. IsObject b.kept.value };
}

impl BoxedObject {
    /// The object in a box of its own. `AllocError` where memory ran out.
    pub fn new(alloc: Global, object: Object) -> Result<BoxedObject, AllocError>
        ensures { IfOk result (λ boxed. boxed ≡ object) }
    {
        let kept = Box::new(alloc, object)?;
        Ok(BoxedObject { kept })
    }

    pub fn get(&self) -> &Object
        ensures { result.now ≡ self.now }
    {
        &self.kept
    }

    /// A copy in a box of its own, with a handle to the same label. `AllocError` where memory ran out.
    pub fn copy(&self, alloc: Global) -> Result<BoxedObject, AllocError>
        ensures { IfOk result (λ boxed. boxed ≡ self.now) }
    {
        BoxedObject::new(alloc, self.kept.share()?)
    }
}
