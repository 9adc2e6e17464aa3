//! What holds of the bytes of snapshots: contracts of functions that do nothing.
ghost use Rattle.std.specs.Prelude.{◌≡◌, ◌++◌, ℕ, List, Ok};
ghost use Rattle.gd_grammar.specs.FieldBytes.{AreBytes};
ghost use Rattle.gd_snapshots.specs.SnapshotBytes.{snapshot_at, snapshot_bytes};
ghost use Rattle.gd_snapshots.specs.Snapshots.{IsSnapshot, Snapshot};

/// A good snapshot is read from its bytes, whatever follows them.
pub fn what_is_spelled_is_read_as_a_snapshot()
    ensures { (s : Snapshot) (rest : List ℕ)
        → IsSnapshot s → snapshot_at (snapshot_bytes s ++ rest) ≡ Ok (s, rest) }
{}

/// What is read as a snapshot is good, and was spelled so.
pub fn what_is_read_as_a_snapshot_was_spelled()
    ensures good { (bytes : List ℕ) (x : Snapshot × List ℕ)
        → AreBytes bytes → snapshot_at bytes ≡ Ok x → IsSnapshot x.0 }
    ensures spelled { (bytes : List ℕ) (x : Snapshot × List ℕ)
        → AreBytes bytes → snapshot_at bytes ≡ Ok x → bytes ≡ snapshot_bytes x.0 ++ x.1 }
{}

/// No good snapshot's bytes are the beginning of another's.
pub fn no_snapshot_begins_another()
    ensures { (s t : Snapshot) (q r : List ℕ) → IsSnapshot s → IsSnapshot t
        → snapshot_bytes s ++ q ≡ snapshot_bytes t ++ r → s ≡ t }
{}

/// The bytes of a good snapshot are bytes.
pub fn a_snapshot_is_bytes()
    ensures { (s : Snapshot) → IsSnapshot s → AreBytes (snapshot_bytes s) }
{}
