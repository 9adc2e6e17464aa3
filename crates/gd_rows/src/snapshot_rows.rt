//! Snapshots, computed on worked rows.
#![tactic(auto, unfolding(crate::proofs::Computing::computing, crate::specs::WorkedSnapshots::AllRead, crate::specs::WorkedSnapshots::AllShort))]

ghost use Rattle.std.specs.Prelude.{◌≡◌, ◌++◌, ◌∷◌, [], Ok};
ghost use Rattle.gd_snapshots.specs.SnapshotBytes.{snapshot_at, snapshot_bytes};
ghost use Rattle.gd_rows.specs.WorkedSnapshots.{AllShort, ChangesRead, full_changes, full_snapshot};
ghost use Rattle.gd_rows.specs.WorkedSnapshots.{full_snapshot_bytes, tie_changes, tie_snapshot, tie_snapshot_bytes};

/// A snapshot of two objects has 145 bytes, and is read whatever follows them.
pub fn a_snapshot_of_two_objects()
    ensures bytes { snapshot_bytes tie_snapshot ≡ tie_snapshot_bytes }
    ensures read { snapshot_at (tie_snapshot_bytes ++ 0 ∷ 57 ∷ [])
        ≡ Ok (tie_snapshot, 0 ∷ 57 ∷ []) }
{}

/// Each field of an object has its bytes, and kept events are spelled as in frames.
pub fn a_snapshot_with_all_fields()
    ensures bytes { snapshot_bytes full_snapshot ≡ full_snapshot_bytes }
    ensures read { snapshot_at full_snapshot_bytes ≡ Ok (full_snapshot, []) }
{}

/// Where a byte is changed, that is a fault at the first byte of its field, or another snapshot.
pub fn a_changed_snapshot()
    ensures { ChangesRead tie_snapshot_bytes tie_changes }
{}

/// Kept events are in order, and bounded by what is known of their sites.
pub fn a_kept_event_has_its_bounds()
    ensures { ChangesRead full_snapshot_bytes full_changes }
{}

/// A snapshot that is cut anywhere is Short at its end.
pub fn a_cut_snapshot_is_short()
    ensures tie { AllShort tie_snapshot_bytes 0 145 }
    ensures front { AllShort full_snapshot_bytes 0 100 }
    ensures rest { AllShort full_snapshot_bytes 100 105 }
{}
