//! Reading a snapshot.

ghost use Rattle.std.specs.Prelude.{◌≡◌, ◌≤◌, ◌^◌, [], length, Err, IfOk, IsSome};
ghost use Rattle.gd_handover.specs.Parts.{Part};
ghost use Rattle.gd_handover.specs.Reading.{EndsWithin, FrontIs, SnapshotIs};
ghost use Rattle.gd_outside.specs.Called.{SourceCalled};
ghost use Rattle.gd_outside.specs.Told.{told};
ghost use Rattle.gd_snapshots.specs.SnapshotBytes.{snapshot_at};

use crate::fault::SnapshotFault;
use crate::head::Head;
use crate::judged::total;
use crate::parts::{NUMBER_BYTES, read_kept, read_known, read_number, read_objects};
use crate::reader::Reader;
use crate::snapshot::Snapshot;
use gd_outside::Source;
use std::alloc::Global;

/// A snapshot has at least so many bytes: its head, what is known of one site, and two numbers.
const LEAST_BYTES: usize = 27;

/// Reads the snapshot at the front of a source's bytes, and takes no byte behind it, however reads cut them.
///
/// `Read` where a read failed, `Bad` at the first fault of the bytes, which is judged before anything behind it is
/// read, and `NoMemory` where memory ran out. What was taken until then is gone.
pub fn read_snapshot<S: Source>(alloc: Global, source: &mut S) -> Result<Snapshot, SnapshotFault>
    ensures exact { IsSome (S.seen source.new).left
        → SnapshotIs result (told (S.seen source.old).left) (told (S.seen source.new).left) }
    ensures cut { result ≡ Err SnapshotFault.Read
        → EndsWithin (S.seen source.old).left (S.seen source.new).left }
    ensures called { SourceCalled (S.seen source.old) (S.seen source.new)
        (result ≡ Err SnapshotFault.Read) }
{
    let mut reader = Reader::new();
    read_parts(alloc, &mut reader, source)
}

/// The same, for who reads on behind the snapshot: with it comes how many bytes it took, which are at most 2 ^ 40.
pub fn read_front<S: Source>(
    alloc: Global,
    source: &mut S,
) -> Result<(Snapshot, u64), SnapshotFault>
    ensures front { FrontIs result (S.seen source.old).left (S.seen source.new).left }
    ensures called { SourceCalled (S.seen source.old) (S.seen source.new)
        (result ≡ Err SnapshotFault.Read) }
    ensures few { IfOk result (λ x. x.1 ≤ 2 ^ 40) }
{
    let mut reader = Reader::new();
    let snapshot = read_parts(alloc, &mut reader, source)?;
    Ok((snapshot, reader.place))
}

/// Reads its parts, one behind the other. Nothing is ahead then.
fn read_parts<S: Source>(
    alloc: Global,
    reader: &mut Reader,
    source: &mut S,
) -> Result<Snapshot, SnapshotFault>
    requires { reader.old ≡ record { ahead = []; place = 0 } }
    ensures part { Part snapshot_at result reader.old reader.new
        (S.seen source.old) (S.seen source.new) }
    ensures few { IfOk result (λ _. length reader.new.ahead ≤ 0) }
    ensures near { IfOk result (λ _. reader.new.place ≤ 2 ^ 40) }
{
    let head = reader.next::<Head, S>(alloc, source, LEAST_BYTES)?;
    let known = read_known(alloc, reader, source, head.sites())?;
    let made = total(known.as_slice());
    let count = read_number(alloc, reader, source, 2 * NUMBER_BYTES, made, 0)?;
    let objects = read_objects(alloc, reader, source, count)?;
    let left = read_number(alloc, reader, source, NUMBER_BYTES, made, count)?;
    let kept = read_kept(alloc, reader, source, known.as_slice(), left)?;
    Ok(Snapshot::new(head.session(), head.site(), known, objects, kept))
}
