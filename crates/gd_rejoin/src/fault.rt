use gd_base::LogWhy;
use gd_logs::{LogFault, ReadError};
use gd_outside::Failed;
use gd_wire::LogHeader;
use std::alloc::{AllocError, AllocFailed};
use thiserror::Error;

/// Why there is no going on from a journal.
#[derive(Clone, Copy, Debug, PartialEq, Eq, Error)]
pub enum ResumeFault {
    /// A call on the journal failed.
    #[error("a call on the journal failed")]
    Journal,
    /// The contents are no log with a closing gate: the first fault, and its place, counted from the first byte.
    #[error("{why}, at byte {at}")]
    Bad { at: u64, why: LogWhy },
    /// The contents are the log of another header.
    #[error("the journal is another one")]
    Other { found: LogHeader },
    #[error("out of memory")]
    NoMemory,
}

impl ResumeFault {
    ghost use Rattle.std.specs.Prelude.{◌≡◌};
    ghost use Rattle.gd_rejoin.specs.Faults.{is_short};

    /// Whether bytes are missing.
    pub(crate) fn is_short(&self) -> bool
        ensures { result ≡ is_short self.now }
    {
        match self {
            ResumeFault::Bad { at: _, why } => *why == LogWhy::Short,
            ResumeFault::Journal | ResumeFault::NoMemory | ResumeFault::Other { found: _ } => false,
        }
    }
}

impl From<Failed> for ResumeFault {
    ghost use Rattle.std.specs.Prelude.{◌≡◌};
    ghost use Rattle.gd_rejoin.specs.declared.fault.ResumeFault.TheVariants.{Journal};

    ghost from_gives = { λ _ e. e ≡ Journal };

    fn from(_: Failed) -> Self {
        ResumeFault::Journal
    }
}

impl From<AllocError> for ResumeFault {
    ghost use Rattle.std.specs.Prelude.{◌≡◌};
    ghost use Rattle.gd_rejoin.specs.declared.fault.ResumeFault.TheVariants.{NoMemory};

    ghost from_gives = { λ _ e. e ≡ NoMemory };

    fn from(_: AllocError) -> Self {
        ResumeFault::NoMemory
    }
}

impl<T: Drop> From<AllocFailed<T>> for ResumeFault {
    ghost use Rattle.std.specs.Prelude.{◌≡◌};
    ghost use Rattle.gd_rejoin.specs.declared.fault.ResumeFault.TheVariants.{NoMemory};

    ghost from_gives = { λ _ e. e ≡ NoMemory };

    fn from(_: AllocFailed<T>) -> Self {
        ResumeFault::NoMemory
    }
}

impl From<ReadError> for ResumeFault {
    ghost use Rattle.std.specs.Prelude.{◌≡◌};
    ghost use Rattle.gd_rejoin.specs.Faults.{fault_of};

    ghost from_gives = { λ error fault. fault ≡ fault_of error };

    fn from(error: ReadError) -> Self {
        match error {
            ReadError::Memory => ResumeFault::NoMemory,
            ReadError::Log(LogFault::Read) => ResumeFault::Journal,
            ReadError::Log(LogFault::Bad { at, why }) => ResumeFault::Bad { at, why },
        }
    }
}
