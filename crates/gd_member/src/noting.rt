//! The member's own note.

ghost use Rattle.std.specs.Prelude.{◌≡◌, List};
ghost use Rattle.gd_events.specs.Events.{Event};
ghost use Rattle.gd_reference.specs.SlowSite.{SlowSite};
ghost use Rattle.gd_reference.specs.World.{Names, Focuses, after_line};
ghost use Rattle.gd_site.specs.Answers.{next_note};

use crate::member::Member;
use gd_base::{Name, Stamp};
use gd_site::NoteEnd;

impl Member {
    ghost use Rattle.gd_member.specs.Members.{IsLive};
    ghost use Rattle.gd_member.specs.Standing.{Stands};

    /// Gives the own note its next number, which is returned, and this name; its focus stays. `NoteEnd` where there is
    /// no next number, and then the member is as before. It takes no memory.
    pub fn set_name(&mut self, name: Name) -> Result<u16, NoteEnd>
        requires { IsLive self.old }
        ensures answer { (slow : SlowSite) (written : List Event) → Stands slow written self.old
            → result ≡ next_note (slow.notes slow.me).number }
        ensures stands { (slow : SlowSite) (written : List Event) → Stands slow written self.old
            → Stands (after_line slow (Names name)) written self.new }
    {
        self.site.set_name(name)
    }

    /// Gives the own note its next number, which is returned, and this focus; its name stays. `NoteEnd` where there is
    /// no next number, and then the member is as before. It takes no memory.
    pub fn set_focus(&mut self, focus: Option<Stamp>) -> Result<u16, NoteEnd>
        requires { IsLive self.old }
        ensures answer { (slow : SlowSite) (written : List Event) → Stands slow written self.old
            → result ≡ next_note (slow.notes slow.me).number }
        ensures stands { (slow : SlowSite) (written : List Event) → Stands slow written self.old
            → Stands (after_line slow (Focuses focus)) written self.new }
    {
        self.site.set_focus(focus)
    }
}
