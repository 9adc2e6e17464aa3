//! Writing a snapshot.

ghost use Rattle.std.specs.Prelude.{◌≡◌, ◌∷◌, ◌<◌, ◌^◌, length, map, Err};
ghost use Rattle.gd_effects.specs.Effects.{Print};
ghost use Rattle.gd_effects.specs.Prints.{Prints};
ghost use Rattle.gd_grammar.specs.Drawings.{spelling};
ghost use Rattle.gd_grammar.specs.FieldBytes.{word_bytes};
ghost use Rattle.gd_snapshots.specs.SnapshotBytes.{placed_bytes, snapshot_pieces};

use crate::pieces::{front_of, number_of, placed_of};
use crate::snapshot::Snapshot;
use gd_base::{Object, Stamp};
use gd_effects::print;
use gd_events::Event;
use gd_outside::{End, Sink};
use gd_wire::{EventBytes, write_event};

/// Writes the bytes of a snapshot, each object and each event as a piece of its own.
///
/// `WriteFault` where a write failed, with a prefix of the bytes written. There is no other end.
pub fn write_snapshot<K: Sink>(snapshot: &Snapshot, output: &mut K) -> Result<(), End>
    ensures does { Prints (K.seen output.old) (map Print (snapshot_pieces snapshot.now)) result
        (K.seen output.new) }
    ensures end { (e : End) → result ≡ Err e → e ≡ End.WriteFault }
{
    let front = front_of(snapshot);
    print(output, front.as_slice())?;
    print_objects(snapshot.objects(), output)?;
    print_kept(snapshot.kept().as_slice(), output)
}

/// Each object behind its id.
fn print_objects<K: Sink>(objects: &[(Stamp, Object)], output: &mut K) -> Result<(), End>
    ensures does { Prints (K.seen output.old) (map Print (map placed_bytes objects.now)) result
        (K.seen output.new) }
    ensures end { (e : End) → result ≡ Err e → e ≡ End.WriteFault }
{
    let mut left = objects;
    'objects: while let Some((placed, rest)) = left.split_first() {
        let piece = placed_of(placed);
        print(output, piece.as_slice())?;
        left = rest;
    }
    Ok(())
}

/// The number of the kept events, and each of them.
fn print_kept<K: Sink>(kept: &[Event], output: &mut K) -> Result<(), End>
    requires { length kept.now < 2 ^ 32 }
    ensures does { Prints (K.seen output.old)
        (map Print (word_bytes (length kept.now) ∷ map spelling kept.now)) result
        (K.seen output.new) }
    ensures end { (e : End) → result ≡ Err e → e ≡ End.WriteFault }
{
    let number = number_of(kept.len() as u32);
    print(output, number.as_slice())?;
    let mut piece = EventBytes::new();
    let mut left = kept;
    'events: while let Some((event, rest)) = left.split_first() {
        write_event(event, &mut piece);
        print(output, piece.as_slice())?;
        left = rest;
    }
    Ok(())
}
