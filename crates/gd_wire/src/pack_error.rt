use gd_base::FieldFault;
use std::alloc::AllocError;

/// Why what was to be read isn't there in the memory that it needs: memory ran out, or a field of it is faulty.
#[derive(Clone, Copy, Debug, PartialEq, Eq)]
pub enum PackError {
    Memory,
    Field(FieldFault),
}

impl From<FieldFault> for PackError {
    ghost use Rattle.std.specs.Prelude.{◌≡◌};
    ghost use Rattle.gd_wire.specs.declared.pack_error.PackError.TheVariants.{Field};

    ghost from_gives = { λ fault e. e ≡ Field fault };

    fn from(fault: FieldFault) -> Self {
        PackError::Field(fault)
    }
}

impl From<AllocError> for PackError {
    ghost use Rattle.std.specs.Prelude.{◌≡◌};
    ghost use Rattle.gd_wire.specs.declared.pack_error.PackError.TheVariants.{Memory};

    ghost from_gives = { λ _ e. e ≡ Memory };

    fn from(_: AllocError) -> Self {
        PackError::Memory
    }
}
