//! Titles in boxes.
ghost use Rattle.std.specs.Prelude.{◌≡◌, IfOk};

use gd_base::Title;
use std::alloc::{AllocError, Global};
use std::marker::Model;

/// A title in a box, which contracts see as the title.
#[derive(Drop)]
pub struct BoxedTitle {
    kept: Box<Title>,
}

impl Model for BoxedTitle {
    ghost use Rattle.std.specs.Prelude.{ℕ, List};

    ghost Value = { List ℕ };

    ghost view = { λ b. b.kept.value };
}

impl BoxedTitle {
    /// The title in a box of its own. `AllocError` where memory ran out.
    pub fn new(alloc: Global, title: Title) -> Result<BoxedTitle, AllocError>
        ensures { IfOk result (λ boxed. boxed ≡ title) }
    {
        let kept = Box::new(alloc, title)?;
        Ok(BoxedTitle { kept })
    }

    pub fn get(&self) -> &Title
        ensures { result.now ≡ self.now }
    {
        &self.kept
    }

    /// The title, out of its box.
    pub fn into_title(self) -> Title
        ensures { result ≡ self }
    {
        Box::into_inner(self.kept)
    }

    /// A copy in a box of its own. `AllocError` where memory ran out.
    pub fn copy(&self, alloc: Global) -> Result<BoxedTitle, AllocError>
        ensures { IfOk result (λ boxed. boxed ≡ self.now) }
    {
        BoxedTitle::new(alloc, self.kept.copy())
    }
}
