ghost use Rattle.std.specs.Prelude.{◌≡◌, ◌≤◌, ◌+◌, length, IfOk, OnErr, OnOk};
ghost use Rattle.gd_reference.specs.SlowSite.{SlowSite, kept};
ghost use Rattle.gd_site.specs.Sites.{StandsFor};
ghost use Rattle.gd_viewing.specs.Handing.{snapshot_of};

use crate::base::base_of;
use crate::kept::kept_of;
use crate::known::known_of;
use crate::placed::placed_of;
use gd_base::Steps;
use gd_handover::Snapshot;
use gd_site::Site;
use std::alloc::{AllocError, Global};
use std::sync::ledger::Ledger;

/// The snapshot of a site, which stays as it is: the kept events are undone on a copy of its drawing, one step each.
///
/// `AllocError` where memory ran out; some of the steps were then taken.
pub fn snapshot_of<L: Ledger>(
    alloc: Global,
    site: &Site,
    steps: &mut Steps<L>,
) -> Result<Snapshot, AllocError>
    ensures snapshot { (slow : SlowSite) → StandsFor slow site.now
        → IfOk result (λ s. s ≡ snapshot_of slow) }
    ensures steps { (slow : SlowSite) → StandsFor slow site.now
        → OnOk result (steps.new ≡ steps.old + length (kept slow)) }
    ensures err_steps { (slow : SlowSite) → StandsFor slow site.now
        → OnErr result (steps.new ≤ steps.old + length (kept slow)) }
    ensures err_rose { OnErr result (steps.old ≤ steps.new) }
{
    site.stands();
    let base = base_of(alloc, site.history(), steps)?;
    let objects = placed_of(alloc, &base)?;
    let kept = kept_of(alloc, site)?;
    Ok(Snapshot::new(site.session(), site.me(), known_of(site), objects, kept))
}
