//! Why an edit comes to nothing.

use gd_base::EditRefusal;
use std::alloc::AllocError;

/// Why an edit becomes no operation, or no event.
#[derive(Clone, Copy, Debug, PartialEq, Eq)]
pub enum EditFault {
    /// It is refused.
    Refused(EditRefusal),
    /// There was no memory for what it becomes.
    Memory,
}

impl From<EditRefusal> for EditFault {
    ghost use Rattle.std.specs.Prelude.{◌≡◌};
    ghost use Rattle.gd_judging.specs.declared.faults.EditFault.TheVariants.{Refused};

    ghost from_gives = { λ why fault. fault ≡ Refused why };

    fn from(why: EditRefusal) -> Self {
        EditFault::Refused(why)
    }
}

impl From<AllocError> for EditFault {
    ghost use Rattle.std.specs.Prelude.{◌≡◌};
    ghost use Rattle.gd_judging.specs.declared.faults.EditFault.TheVariants.{Memory};

    ghost from_gives = { λ _ fault. fault ≡ Memory };

    fn from(_: AllocError) -> Self {
        EditFault::Memory
    }
}
