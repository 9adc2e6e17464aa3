//! The pieces of which a snapshot is read.

ghost use Rattle.std.specs.Prelude.{◌≡◌, ℕ, List};
ghost use Rattle.gd_grammar.specs.Reading.{Reads};
ghost use Rattle.gd_snapshots.specs.Pieces.{PieceLaws};
ghost use Rattle.gd_wire.specs.Packed.{GivesPacked};

use crate::fields;
use crate::head::Head;
use gd_base::{Object, Stamp, Version};
use gd_events::Event;
use gd_snapshots::Known;
use gd_wire::{Bytes, Drawings, PackError};
use std::alloc::Global;

/// A type that is read off the front of bytes, behind which more may come. It takes no more bytes than an event.
pub trait Piece: Drop {
    /// What is read of which bytes.
    ghost read: { List ℕ → Reads Self };

    /// How many bytes it takes at least.
    ghost least: { ℕ };

    /// Reads it into the memory that it needs. The first fault is returned: `Short` at the end of all bytes where they
    /// aren't all of it. `Memory` where memory ran out.
    fn parse<'a>(alloc: Global, bytes: &mut Bytes<'a>) -> Result<Self, PackError>
        ensures { GivesPacked (λ x. (x, bytes.new)) result (read bytes.old) };

    /// It is read alike whatever follows it, and where its spelling stands.
    ghost laws: { PieceLaws read least };
}

impl Piece for Head {
    ghost use Rattle.gd_snapshots.specs.SnapshotBytes.{head_at};
    ghost use Rattle.gd_snapshots.proofs.PieceLaws.{head_piece};

    ghost read = { head_at };

    ghost least = { 11 };

    ghost laws = { head_piece };

    fn parse<'a>(_alloc: Global, bytes: &mut Bytes<'a>) -> Result<Self, PackError> {
        Ok(fields::head(bytes)?)
    }
}

impl Piece for Known {
    ghost use Rattle.gd_snapshots.specs.SnapshotBytes.{known_at};
    ghost use Rattle.gd_snapshots.proofs.PieceLaws.{known_piece};

    ghost read = { known_at };

    ghost least = { 8 };

    ghost laws = { known_piece };

    fn parse<'a>(_alloc: Global, bytes: &mut Bytes<'a>) -> Result<Self, PackError> {
        Ok(fields::known(bytes)?)
    }
}

/// A number of objects or of kept events.
impl Piece for u32 {
    ghost use Rattle.gd_grammar.specs.Fields.{word_at};
    ghost use Rattle.gd_snapshots.proofs.PieceLaws.{number_piece};

    ghost read = { word_at };

    ghost least = { 4 };

    ghost laws = { number_piece };

    fn parse<'a>(_alloc: Global, bytes: &mut Bytes<'a>) -> Result<Self, PackError> {
        Ok(bytes.word()?)
    }
}

/// The id of an object.
impl Piece for Stamp {
    ghost use Rattle.gd_grammar.specs.Fields.{stamp_at};
    ghost use Rattle.gd_snapshots.proofs.PieceLaws.{id_piece};

    ghost read = { stamp_at };

    ghost least = { 7 };

    ghost laws = { id_piece };

    fn parse<'a>(_alloc: Global, bytes: &mut Bytes<'a>) -> Result<Self, PackError> {
        Ok(bytes.stamp()?)
    }
}

impl Piece for Object {
    ghost use Rattle.std.specs.Prelude.{None};
    ghost use Rattle.gd_grammar.specs.ObjectBytes.{object_at};
    ghost use Rattle.gd_snapshots.proofs.PieceLaws.{object_piece};

    ghost read = { object_at None };

    ghost least = { 48 };

    ghost laws = { object_piece };

    fn parse<'a>(alloc: Global, bytes: &mut Bytes<'a>) -> Result<Self, PackError> {
        bytes.object(alloc, &None)
    }
}

impl Piece for Event {
    ghost use Rattle.gd_grammar.specs.Drawings.{event_at};
    ghost use Rattle.gd_snapshots.proofs.PieceLaws.{event_piece};

    ghost read = { event_at };

    ghost least = { 17 };

    ghost laws = { event_piece };

    fn parse<'a>(alloc: Global, bytes: &mut Bytes<'a>) -> Result<Self, PackError> {
        bytes.event::<Drawings>(alloc, Version::Three)
    }
}
