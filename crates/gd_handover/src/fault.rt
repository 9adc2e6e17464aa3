use gd_base::ViewWhy;
use gd_outside::Failed;
use std::alloc::{AllocError, AllocFailed};
use thiserror::Error;

/// Why no snapshot was read.
#[derive(Clone, Copy, Debug, PartialEq, Eq, Error)]
pub enum SnapshotFault {
    /// A read of the source failed.
    #[error("a read failed")]
    Read,
    /// The bytes are no snapshot: the first fault, and its place, counted from the first byte.
    #[error("{why}, at byte {at}")]
    Bad { at: u64, why: ViewWhy },
    #[error("out of memory")]
    NoMemory,
}

impl From<Failed> for SnapshotFault {
    ghost use Rattle.std.specs.Prelude.{◌≡◌};
    ghost use Rattle.gd_handover.specs.declared.fault.SnapshotFault.TheVariants.{Read};

    ghost from_gives = { λ _ e. e ≡ Read };

    fn from(_: Failed) -> Self {
        SnapshotFault::Read
    }
}

impl From<AllocError> for SnapshotFault {
    ghost use Rattle.std.specs.Prelude.{◌≡◌};
    ghost use Rattle.gd_handover.specs.declared.fault.SnapshotFault.TheVariants.{NoMemory};

    ghost from_gives = { λ _ e. e ≡ NoMemory };

    fn from(_: AllocError) -> Self {
        SnapshotFault::NoMemory
    }
}

impl<T: Drop> From<AllocFailed<T>> for SnapshotFault {
    ghost use Rattle.std.specs.Prelude.{◌≡◌};
    ghost use Rattle.gd_handover.specs.declared.fault.SnapshotFault.TheVariants.{NoMemory};

    ghost from_gives = { λ _ e. e ≡ NoMemory };

    fn from(_: AllocFailed<T>) -> Self {
        SnapshotFault::NoMemory
    }
}
