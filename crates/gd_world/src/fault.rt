use std::alloc::AllocError;
use thiserror::Error;

/// Why a call of a world doesn't go through. Only want of memory changes anything.
#[derive(Clone, Copy, Debug, PartialEq, Eq, Error)]
pub enum WorldFault {
    /// A site isn't one of the session, or the sender is the receiver.
    #[error("no such site")]
    NoSite,
    /// No mail has that number.
    #[error("no such mail")]
    NoMail,
    /// There was no memory. The world is of no use then.
    #[error("out of memory")]
    NoMemory,
}

impl From<AllocError> for WorldFault {
    ghost use Rattle.std.specs.Prelude.{◌≡◌};
    ghost use Rattle.gd_world.specs.declared.fault.WorldFault.TheVariants.{NoMemory};

    ghost from_gives = { λ _ fault. fault ≡ NoMemory };

    fn from(_: AllocError) -> Self {
        WorldFault::NoMemory
    }
}
