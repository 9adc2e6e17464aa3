ghost use Rattle.std.specs.Prelude.{◌≡◌, ◌<◌, ◌≤◌, [], ◌++◌, length, take, IsErr, IfOk, Ok, OnErr, OnOk};
ghost use Rattle.gd_member.specs.Growing.{seen_grown};
ghost use Rattle.gd_outside.specs.Told.{Grows, GrowsByFront};
ghost use Rattle.gd_outside.specs.Called.{SinkCalled};

use gd_outside::{Failed, Sink};
use std::alloc::Global;
use std::marker::Model;

/// An output in memory, which takes more where it is needed. A write fails where there is none.
#[derive(Drop)]
pub(crate) struct Growing {
    bytes: Vec<u8>,
    faults: u64,
}

impl Model for Growing {
    ghost use Rattle.gd_member.specs.Growing.{Grown};

    ghost Value = { Grown };

    ghost view = { λ g. record { bytes = g.bytes.items; faults = g.faults } };
}

impl Growing {
    /// No bytes. It takes no memory.
    pub(crate) fn new(alloc: Global) -> Growing
        ensures bytes { result.bytes ≡ [] }
        ensures faults { result.faults ≡ 0 }
    {
        Growing {
            bytes: Vec::new(alloc),
            faults: 0,
        }
    }

    /// The bytes that were written.
    pub(crate) fn into_bytes(self) -> Vec<u8>
        ensures { result.items ≡ self.bytes }
    {
        self.bytes
    }
}

impl Sink for Growing {
    ghost seen = { seen_grown };

    fn write(&mut self, piece: &[u8]) -> Result<usize, Failed> {
        match self.bytes.extend_from_slice(piece) {
            Ok(()) => Ok(piece.len()),
            Err(_) => {
                self.faults = self.faults.saturating_add(1);
                Err(Failed)
            }
        }
    }
}
