//! Why bytes give no frame.
use crate::pack_error::PackError;
use crate::read::wire_why;
use gd_base::{FieldFault, WireFault, WireWhy};
use std::alloc::AllocError;

/// Why bytes give no frame: memory ran out, or they are none.
#[derive(Clone, Copy, Debug, PartialEq, Eq)]
pub enum FrameError {
    Memory,
    Fault(WireFault),
}

/// Why reading a frame stopped: memory ran out, or the bytes are none, and `left` of them stand
/// from the fault's place on.
#[derive(Drop)]
pub enum ReadError {
    Memory,
    Misread { why: WireWhy, left: usize },
}

impl From<FieldFault> for ReadError {
    ghost use Rattle.std.specs.Prelude.{◌≡◌};
    ghost use Rattle.gd_wire.specs.Frames.{field_error};

    ghost from_gives = { λ fault error. error ≡ field_error fault };

    fn from(fault: FieldFault) -> Self {
        ReadError::Misread {
            why: wire_why(fault.why),
            left: fault.left,
        }
    }
}

impl From<PackError> for ReadError {
    ghost use Rattle.std.specs.Prelude.{◌≡◌};
    ghost use Rattle.gd_wire.specs.Frames.{pack_error};

    ghost from_gives = { λ given error. error ≡ pack_error given };

    fn from(given: PackError) -> Self {
        match given {
            PackError::Memory => ReadError::Memory,
            PackError::Field(fault) => ReadError::from(fault),
        }
    }
}

impl From<AllocError> for ReadError {
    ghost use Rattle.std.specs.Prelude.{◌≡◌};
    ghost use Rattle.gd_wire.specs.declared.frame.error.ReadError.TheVariants.{Memory};

    ghost from_gives = { λ _ error. error ≡ Memory };

    fn from(_: AllocError) -> Self {
        ReadError::Memory
    }
}
