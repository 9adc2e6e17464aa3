//! The drawing of a member, as others read it.

ghost use Rattle.std.specs.List.{concat};
ghost use Rattle.std.specs.Prelude.{◌≡◌, ◌≤◌, ◌+◌, List, IfOk, OnErr, OnOk, length};
ghost use Rattle.gd_events.specs.Events.{Event};
ghost use Rattle.gd_json.specs.PictureJson.{picture_json};
ghost use Rattle.gd_model.specs.Drawing.{picture};
ghost use Rattle.gd_model.specs.Shown.{items};
ghost use Rattle.gd_reference.specs.DrawingText.{text};
ghost use Rattle.gd_reference.specs.SlowSite.{SlowSite, kept};
ghost use Rattle.gd_snapshots.specs.SnapshotBytes.{snapshot_bytes};
ghost use Rattle.gd_viewing.specs.Handing.{snapshot_of as handed};

use crate::growing::Growing;
use crate::member::Member;
use gd_base::Steps;
use gd_capture::snapshot_of;
use gd_export::{JsonText, picture_json};
use gd_handover::write_snapshot;
use gd_view::{Picture, write_text};
use std::alloc::AllocError;
use std::sync::ledger::Ledger;

impl Member {
    ghost use Rattle.gd_member.specs.Standing.{Stands};

    /// The picture of the drawing. `AllocError` where memory ran out.
    pub fn picture(&self) -> Result<Picture, AllocError>
        ensures { (slow : SlowSite) (written : List Event) → Stands slow written self.now
            → IfOk result (λ p. p ≡ items (picture slow.held)) }
    {
        self.site.picture()
    }

    /// The drawing as one line of JSON. `AllocError` where memory ran out.
    pub fn json(&self) -> Result<JsonText, AllocError>
        ensures { (slow : SlowSite) (written : List Event) → Stands slow written self.now
            → IfOk result (λ line. line ≡ picture_json (items (picture slow.held))) }
    {
        let shown = self.site.picture()?;
        picture_json(self.alloc, &shown)
    }

    /// The text of the drawing: a line for each object, and one that counts them. `AllocError` where memory ran out.
    pub fn text(&self) -> Result<Vec<u8>, AllocError>
        ensures { (slow : SlowSite) (written : List Event) → Stands slow written self.now
            → IfOk result (λ bytes. bytes.items ≡ concat (text (picture slow.held))) }
    {
        let shown = self.site.picture()?;
        let mut output = Growing::new(self.alloc);
        match write_text(&shown, &mut output) {
            Ok(()) => Ok(output.into_bytes()),
            Err(_) => Err(AllocError {}),
        }
    }

    /// The bytes of a snapshot of the drawing, with which a viewer, or a new member of the session, begins without its
    /// history. The member stays as it is; the steps rise by one for each event above its line.
    ///
    /// `AllocError` where memory ran out; some of the steps were then taken.
    pub fn snapshot<L: Ledger>(&self, steps: &mut Steps<L>) -> Result<Vec<u8>, AllocError>
        ensures bytes { (slow : SlowSite) (written : List Event) → Stands slow written self.now
            → IfOk result (λ bytes. bytes.items ≡ snapshot_bytes (handed slow)) }
        ensures steps { (slow : SlowSite) (written : List Event) → Stands slow written self.now
            → OnOk result (steps.new ≡ steps.old + length (kept slow)) }
        ensures err_steps { (slow : SlowSite) (written : List Event) → Stands slow written self.now
            → OnErr result (steps.new ≤ steps.old + length (kept slow)) }
        ensures err_rose { OnErr result (steps.old ≤ steps.new) }
    {
        self.site.stands();
        let snapshot = snapshot_of(self.alloc, &self.site, steps)?;
        let mut output = Growing::new(self.alloc);
        match write_snapshot(&snapshot, &mut output) {
            Ok(()) => Ok(output.into_bytes()),
            Err(_) => Err(AllocError {}),
        }
    }
}
