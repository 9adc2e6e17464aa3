//! Viewers, and the snapshot of a log, computed on worked rows.
#![tactic(auto, unfolding(crate::proofs::Computing::computing))]

ghost use Rattle.std.specs.List.{AllByRecursion};
ghost use Rattle.std.specs.Prelude.{◌≡◌, ◌++◌, ◌∷◌, []};
ghost use Rattle.gd_outside.specs.declared.status.Status.TheVariants.{BadView, Done};
ghost use Rattle.gd_reference.specs.SlowSite.{kept};
ghost use Rattle.gd_rows.specs.Worked.{header, prints_of, tie_events, works_of};
ghost use Rattle.gd_rows.specs.WorkedSnapshots.{full_snapshot_bytes, tie_snapshot, tie_snapshot_bytes};
ghost use Rattle.gd_rows.specs.WorkedViews.{bad_views, cut_line, cut_view, drawn_views, failed_view, item};
ghost use Rattle.gd_rows.specs.WorkedViews.{late_effects, late_frame, moved_effects};
ghost use Rattle.gd_viewing.specs.Handing.{known_behind};
ghost use Rattle.gd_viewing.specs.Snapshotting.{site_of, snapshot_work};
ghost use Rattle.gd_viewing.specs.Viewing.{view_cut, view_effects, view_end};

/// A site that begins anew with the events of a log knows of each site what the log holds, and keeps what lies above
/// its line.
pub fn a_log_as_a_snapshot()
    ensures known { known_behind (site_of header tie_events) 0 2 ≡ tie_snapshot.known }
    ensures kept { kept (site_of header tie_events) ≡ [] }
    ensures work { snapshot_work (site_of header tie_events) ≡ works_of (1 ∷ 1 ∷ []) }
{}

/// A viewer prints what came of each frame, in front of the drawing.
pub fn a_viewer_prints_its_frames()
    ensures done { AllByRecursion (λ v. view_cut (tie_snapshot_bytes ++ v.behind) ≡ v.done)
        drawn_views }
    ensures end { AllByRecursion (λ v. view_end (tie_snapshot_bytes ++ v.behind) ≡ v.end)
        drawn_views }
{}

/// Where an item is none, its fault is printed in place of the drawing.
pub fn a_bad_item_ends_a_view()
    ensures effects { AllByRecursion (λ v. view_effects (tie_snapshot_bytes ++ v.behind) ≡ v.done)
        bad_views }
    ensures end { AllByRecursion (λ v. view_end (tie_snapshot_bytes ++ v.behind) ≡ v.end)
        bad_views }
{}

/// Bytes that are no snapshot have their fault.
pub fn a_cut_snapshot_is_no_view()
    ensures effects { view_effects cut_view ≡ prints_of cut_line }
    ensures end { view_end cut_view ≡ BadView }
{}

/// A snapshot's kept events are done again, and a late event is repaired by them.
pub fn kept_events_are_done_again()
    ensures alone { view_cut full_snapshot_bytes ≡ works_of (1 ∷ 1 ∷ []) }
    ensures late { view_cut (full_snapshot_bytes ++ item late_frame) ≡ late_effects }
    ensures end { view_end (full_snapshot_bytes ++ item late_frame) ≡ Done }
{}

/// Where a read fails, the frames of the whole items are done, and where the snapshot isn't whole, nothing is.
pub fn a_failed_read_leaves_whole_items()
    ensures items { view_cut failed_view ≡ moved_effects }
    ensures snapshot { view_cut cut_view ≡ [] }
{}
