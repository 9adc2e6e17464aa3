//! Reading pieces of a snapshot off a source, so that no byte behind the snapshot is taken.

ghost use Rattle.std.specs.Prelude.{◌≡◌, ◌<◌, ◌≤◌, ◌+◌, ◌-◌, ◌^◌, [], length, IfOk, OnErr};
ghost use Rattle.gd_base.specs.declared.fault.FieldWhy.TheVariants.{Short};
ghost use Rattle.gd_grammar.specs.FieldBytes.{AreBytes};
ghost use Rattle.gd_grammar.specs.Reading.{place};
ghost use Rattle.gd_grammar.specs.declared.sizes.TheConstants.{EVENT_BYTES};
ghost use Rattle.gd_snapshots.specs.Pieces.{Stands};
ghost use Rattle.gd_snapshots.specs.SnapshotBytes.{in_view, view_why};
ghost use Rattle.gd_handover.specs.Parts.{Part};
ghost use Rattle.gd_handover.specs.Pieces.{GoesOn};
ghost use Rattle.gd_wire.specs.Packed.{GivesPacked};

use crate::ahead::Ahead;
use crate::fault::SnapshotFault;
use crate::piece::Piece;
use gd_base::{FieldFault, FieldWhy, ViewWhy};
use gd_outside::Source;
use gd_wire::{Bytes, PackError};
use std::alloc::Global;

/// Bytes that were read ahead, and how many were used before them.
#[derive(Drop)]
pub struct Reader {
    pub ahead: Ahead,
    pub place: u64,
}

impl Reader {
    /// At the first byte, with none ahead.
    pub fn new() -> Self
        ensures { result ≡ record { ahead = []; place = 0 } }
    {
        Reader {
            ahead: Ahead::new(),
            place: 0,
        }
    }

    /// Reads the next piece. `least` is how many bytes the snapshot has at least from here on, where it is whole: no
    /// more than that are read ahead, but one byte after the other where the piece needs more.
    ///
    /// `Read` where a read failed, `Bad` at the piece's first fault, and `NoMemory` where memory ran out. Bytes are
    /// judged before more are read.
    pub fn next<P: Piece, S: Source>(
        &mut self,
        alloc: Global,
        source: &mut S,
        least: usize,
    ) -> Result<P, SnapshotFault>
        requires near { self.old.place ≤ 2 ^ 62 }
        requires few { length self.old.ahead ≤ least }
        ensures part { Part (λ bytes. in_view (P.read bytes)) result self.old self.new
            (S.seen source.old) (S.seen source.new) }
        ensures few { IfOk result (λ _. length self.new.ahead ≤ least - P.least) }
        ensures near { IfOk result (λ _. self.new.place ≤ self.old.place + EVENT_BYTES) }
    {
        'piece: loop {
            match self.take::<P>(alloc) {
                Ok(piece) => return Ok(piece),
                Err(PackError::Memory) => return Err(SnapshotFault::NoMemory),
                Err(PackError::Field(fault)) => self.read_on(source, least, fault)?,
            }
        }
    }

    /// Takes a piece off the bytes ahead. Else their first fault, or `Memory` where memory ran out, and then they stay
    /// as they were.
    fn take<P: Piece>(&mut self, alloc: Global) -> Result<P, PackError>
        requires near { self.old.place ≤ 2 ^ 62 }
        ensures stands { IfOk result (λ x.
            Stands P.read P.least self.old.ahead (x, self.new.ahead)) }
        ensures are { IfOk result (λ _. AreBytes self.old.ahead) }
        ensures moved { IfOk result (λ _. self.new.place + length self.new.ahead
            ≡ self.old.place + length self.old.ahead) }
        ensures near { IfOk result (λ _. self.new.place ≤ self.old.place + EVENT_BYTES) }
        ensures read { GivesPacked (λ x. (x, self.new.ahead)) result (P.read self.old.ahead) }
        ensures stays { OnErr result (self.new ≡ self.old) }
    {
        let mut rest = Bytes::new(self.ahead.as_slice());
        rest.are_bytes();
        let piece = P::parse(alloc, &mut rest)?;
        let count = self.ahead.len() - rest.len();
        self.ahead.skip(count);
        self.place += count as u64;
        Ok(piece)
    }

    /// Reads more bytes behind those ahead, which have that fault of a piece.
    ///
    /// The fault, with its place, where they aren't just the beginning of the piece, and where nothing comes; `Read`
    /// where the read failed. The bytes ahead then stay as they were.
    fn read_on<S: Source>(
        &mut self,
        source: &mut S,
        least: usize,
        fault: FieldFault,
    ) -> Result<(), SnapshotFault>
        requires near { self.old.place ≤ 2 ^ 62 }
        requires inside { fault.left ≤ length self.old.ahead }
        requires beginning { fault.why ≡ Short → length self.old.ahead < EVENT_BYTES }
        ensures { GoesOn fault least result self.old self.new
            (S.seen source.old) (S.seen source.new) }
    {
        match fault.why {
            FieldWhy::Short => {
                let one_more = self.ahead.len() + 1;
                match self.ahead.read(source, one_more.max(least))? {
                    0 => Err(self.misread(fault)),
                    _ => Ok(()),
                }
            }
            _ => Err(self.misread(fault)),
        }
    }

    /// The fault of a piece in the bytes ahead, with its place.
    fn misread(&self, fault: FieldFault) -> SnapshotFault
        requires near { self.now.place ≤ 2 ^ 62 }
        requires inside { fault.left ≤ length self.now.ahead }
        ensures { result ≡ SnapshotFault.Bad (self.now.place + place self.now.ahead fault.left)
            (view_why fault.why) }
    {
        SnapshotFault::Bad {
            at: self.place + (self.ahead.len() - fault.left) as u64,
            why: view_why(fault.why),
        }
    }
}

fn view_why(why: FieldWhy) -> ViewWhy
    ensures { result ≡ view_why why }
{
    match why {
        FieldWhy::Short => ViewWhy::Short,
        FieldWhy::Magic => ViewWhy::Magic,
        FieldWhy::Version => ViewWhy::Version,
        FieldWhy::Field => ViewWhy::Field,
        FieldWhy::FutureId => ViewWhy::FutureId,
        FieldWhy::MemberOrder => ViewWhy::MemberOrder,
    }
}
