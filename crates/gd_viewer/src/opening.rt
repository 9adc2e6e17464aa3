//! What a viewer begins with, from the parts of a snapshot.
ghost use Rattle.std.specs.Prelude.{◌≡◌, ◌≤◌, length, IfOk};
ghost use Rattle.std.specs.FinMap as map_of;
ghost use Rattle.gd_base.specs.declared.ranges.TheConstants.{SITES};
ghost use Rattle.gd_slots.specs.Slots.{board_of};
ghost use Rattle.gd_snapshots.specs.Snapshots.{IsSnapshot};
ghost use Rattle.gd_viewer.specs.Opening.{Hears, Rise};

use gd_canvas::Canvas;
use gd_handover::{Known, PlacedList, Snapshot};
use gd_stable::Heard;
use std::alloc::{AllocError, Global};

/// A snapshot is good. Brings the type's invariant into a proof; no effect at run time.
pub(crate) fn snapshot_holds(snapshot: &Snapshot)
    ensures { IsSnapshot snapshot.now }
{
    let _ = snapshot.kept();
}

/// What is heard of each site, from what is known of it.
pub(crate) fn heard_of(known: &[Known]) -> Heard
    requires { length known.now ≤ SITES }
    ensures { Hears known.now result }
{
    let mut heard = Heard::new(known.len() as u8);
    'sites: for index in 0..known.len() {
        let one = known[index];
        heard.set(index as u8 + 1, one.count, one.sure);
    }
    heard
}

/// The drawing of these objects, which are moved, and whose ids rise. `AllocError` where memory ran out.
pub(crate) fn canvas_of(alloc: Global, objects: PlacedList) -> Result<Canvas, AllocError>
    requires { Rise (λ p. p.0) objects }
    ensures { IfOk result (λ c. board_of c ≡ map_of.from_entries objects) }
{
    let mut canvas = Canvas::new(alloc)?;
    let mut left = objects.into_objects();
    'objects: while let Some((id, object)) = left.next() {
        canvas.put(id, object)?;
    }
    Ok(canvas)
}
