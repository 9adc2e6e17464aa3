//! Edits of the member's user.

ghost use Rattle.std.specs.Prelude.{◌≡◌, ◌+◌, List, OnErr, OnOk};
ghost use Rattle.gd_events.specs.Events.{Event};
ghost use Rattle.gd_lines.specs.InRange.{IsEdit};
ghost use Rattle.gd_reference.specs.Judging as judging;
ghost use Rattle.gd_reference.specs.SlowSite.{SlowSite};
ghost use Rattle.gd_reference.specs.TakeBack.{after_edit};
ghost use Rattle.gd_judging.specs.Faults.{EditIs};
ghost use Rattle.gd_site.specs.Sites.{StandsFor};
ghost use Rattle.gd_takeback.specs.Answers.{StampIs};

use crate::member::Member;
use gd_base::{Edit, Stamp, Steps};
use gd_site::{EditFault, Site};
use std::sync::ledger::Ledger;

impl Member {
    ghost use Rattle.gd_member.specs.Members.{IsLive};
    ghost use Rattle.gd_member.specs.Standing.{Stands};

    /// Carries out an edit of the member's user, and returns the stamp of the event that it became, which is unwritten
    /// then.
    ///
    /// `ClockEnd`, `SessionFull`, `NoObject`, `NotShape`, `NotGroup`, `NotPlaced`, `NotConnector`, `SameMember`,
    /// `NotTop` and `TooFar` are decided in this order, whether there is memory or not; `Memory` where there was none
    /// for the event. After each of them the member and the steps are as before.
    pub fn edit<L: Ledger>(&mut self, edit: &Edit, steps: &mut Steps<L>) -> Result<Stamp, EditFault>
        requires live { IsLive self.old }
        requires ranged { IsEdit edit.now }
        ensures answer { (slow : SlowSite) (written : List Event) → Stands slow written self.old
            → StampIs (judging.edit slow edit.now) result }
        ensures stands { (slow : SlowSite) (written : List Event) → Stands slow written self.old
            → OnOk result (Stands (after_edit slow edit.now) written self.new) }
        ensures err_stands { (slow : SlowSite) (written : List Event) → Stands slow written self.old
            → OnErr result (Stands slow written self.new) }
        ensures steps { OnOk result (steps.new ≡ steps.old + 1) }
        ensures err_steps { OnErr result (steps.new ≡ steps.old) }
    {
        match self.unwritten.reserve() {
            Ok(()) => {
                let event = self.backs.edit(&mut self.site, edit, steps)?;
                self.unwritten.add(&event);
                let stamp = event.stamp();
                drop(event);
                Ok(stamp)
            }
            Err(_) => Err(fault_without_memory(&self.site, edit)),
        }
    }
}

/// Why an edit becomes no event where there is no memory for one.
fn fault_without_memory(site: &Site, edit: &Edit) -> EditFault
    requires { IsEdit edit.now }
    ensures { (slow : SlowSite) → StandsFor slow site.now
        → EditIs (judging.edit slow edit.now) (Err result) }
{
    match site.decide(edit) {
        Ok(event) => {
            drop(event);
            EditFault::Memory
        }
        Err(fault) => fault,
    }
}
