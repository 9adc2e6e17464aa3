//! The pieces in which a snapshot is written.
ghost use Rattle.std.specs.List.{AllByRecursion};
ghost use Rattle.std.specs.Prelude.{◌≡◌, ◌≤◌, ◌+◌, ◌*◌, ◌++◌, length};
ghost use Rattle.gd_grammar.specs.FieldBytes.{word_bytes, each_bytes};
ghost use Rattle.gd_grammar.specs.declared.sizes.TheConstants.{EVENT_BYTES};
ghost use Rattle.gd_snapshots.specs.SnapshotBytes.{front_bytes, known_bytes, placed_bytes};
ghost use Rattle.gd_snapshots.specs.Snapshots.{IsKnown};

use crate::fields::{MAGIC, VERSION};
use crate::snapshot::Snapshot;
use gd_base::{Object, Stamp};
use gd_snapshots::Known;
use gd_wire::EventBytes;

/// All in front of the objects: the head, what is known of each site, and the number of objects.
pub(crate) fn front_of(snapshot: &Snapshot) -> EventBytes
    ensures { result ≡ front_bytes snapshot.now }
{
    let known = snapshot.known();
    let objects = snapshot.objects();
    let mut out = EventBytes::new();
    out.put_word(MAGIC);
    out.put_byte(VERSION);
    out.put_word(snapshot.session());
    out.put_byte(snapshot.site());
    out.put_byte(known.len() as u8);
    put_all_known(known, &mut out);
    out.put_word(objects.len() as u32);
    out
}

/// An object behind its id.
pub(crate) fn placed_of(placed: &(Stamp, Object)) -> EventBytes
    ensures { result ≡ placed_bytes placed.now }
{
    let (id, object) = placed;
    let mut out = EventBytes::new();
    out.put_stamp(*id);
    out.put_object(object);
    out
}

/// A number of things.
pub(crate) fn number_of(count: u32) -> EventBytes
    ensures { result ≡ word_bytes count }
{
    let mut out = EventBytes::new();
    out.put_word(count);
    out
}

/// What is known of all sites, one behind the other.
fn put_all_known(all: &[Known], out: &mut EventBytes)
    requires known { AllByRecursion IsKnown all.now }
    requires room { length out.old + 8 * length all.now ≤ EVENT_BYTES }
    ensures bytes { out.new ≡ out.old ++ each_bytes known_bytes all.now }
    ensures grown { length out.new ≡ length out.old + 8 * length all.now }
{
    let mut left = all;
    'sites: while let Some((known, rest)) = left.split_first() {
        out.put_number(known.count);
        out.put_clock(known.sure);
        left = rest;
    }
}
