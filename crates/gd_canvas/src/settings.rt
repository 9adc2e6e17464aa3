//! Changes of one object where it stands.
ghost use Rattle.std.specs.Prelude.{◌≡◌};

use crate::contents;
use gd_base::{Link, Object};
use gd_model::Held;
use gd_slots::Change;

/// Puts a content into an object, where it has that part. What it replaces is what was there.
#[derive(Drop)]
pub struct Setting {
    pub content: Held,
}

impl Change<Object> for Setting {
    type Old = Held;

    ghost use Rattle.gd_model.specs.Objects.{set};
    ghost use Rattle.gd_canvas.specs.Settings.{replaced_by};

    ghost changed = { λ s. set s.content };

    ghost replaced = { λ s. replaced_by s.content };

    fn change(self, object: &mut Object) -> Option<Held> {
        if contents::fits(&self.content, object.kind) {
            Some(contents::exchange(object, self.content))
        } else {
            None
        }
    }
}

/// Gives an object a link.
#[derive(Drop)]
pub struct Linking {
    pub link: Option<Link>,
}

impl Change<Object> for Linking {
    type Old = ();

    ghost use Rattle.std.specs.Prelude.{None};
    ghost use Rattle.gd_model.specs.Objects.{with_link};

    ghost changed = { λ s. with_link s.link };

    ghost replaced = { λ s o. None };

    fn change(self, object: &mut Object) -> Option<()> {
        object.link = self.link;
        None
    }
}
