//! The parts of a snapshot behind its head, as they are read off a source.

ghost use Rattle.std.specs.Prelude.{◌≡◌, ◌≤◌, ◌<◌, ◌+◌, ◌-◌, ◌*◌, ◌^◌, None, length, IfOk};
ghost use Rattle.gd_base.specs.declared.ranges.TheConstants.{SITES};
ghost use Rattle.gd_snapshots.specs.SnapshotBytes.{all_known_at, all_kept_at, in_view, kept_at, number_within};
ghost use Rattle.gd_snapshots.specs.SnapshotBytes.{objects_at, placed_at};
ghost use Rattle.gd_snapshots.specs.Snapshots.{least_sure};
ghost use Rattle.gd_handover.specs.Parts.{Part};
ghost use Rattle.gd_handover.specs.Pieces.{kept_fault};

use crate::fault::SnapshotFault;
use crate::judged::{is_above, is_bounded, least_sure};
use crate::reader::Reader;
use crate::snapshot::{KnownList, PlacedList};
use gd_base::{Object, Stamp, ViewWhy};
use gd_events::{Event, EventList};
use gd_outside::Source;
use gd_snapshots::Known;
use std::alloc::Global;

/// The bytes of what is known of a site.
const KNOWN_BYTES: usize = 8;

/// The bytes of an id, and of an object behind its id at least.
const ID_BYTES: usize = 7;

const PLACED_BYTES: usize = 55;

/// The bytes of an event at least.
const LEAST_EVENT: usize = 17;

/// The bytes of a number.
pub const NUMBER_BYTES: usize = 4;

/// What is known of so many sites. Behind it come two numbers at least.
pub fn read_known<S: Source>(
    alloc: Global,
    reader: &mut Reader,
    source: &mut S,
    sites: u8,
) -> Result<KnownList, SnapshotFault>
    requires near { reader.old.place ≤ 2 ^ 40 }
    requires few { length reader.old.ahead ≤ 8 * sites + 8 }
    requires sites { sites ≤ SITES }
    ensures part { Part (λ bytes. in_view (all_known_at sites bytes)) result reader.old reader.new
        (S.seen source.old) (S.seen source.new) }
    ensures few { IfOk result (λ _. length reader.new.ahead ≤ 8) }
    ensures near { IfOk result (λ _. reader.new.place ≤ reader.old.place + 1100 * sites) }
    ensures long { IfOk result (λ known. length known ≡ sites) }
{
    let mut known = KnownList::new();
    'each: for i in 0..sites {
        let least = KNOWN_BYTES * (sites - i) as usize + 2 * NUMBER_BYTES;
        let of = reader.next::<Known, S>(alloc, source, least)?;
        known.push(of);
    }
    Ok(known)
}

/// How many objects, or how many kept events, there are: at most `most` with those that came before them.
pub fn read_number<S: Source>(
    alloc: Global,
    reader: &mut Reader,
    source: &mut S,
    least: usize,
    most: u32,
    before: u32,
) -> Result<u32, SnapshotFault>
    requires near { reader.old.place ≤ 2 ^ 40 }
    requires few { length reader.old.ahead ≤ least }
    requires most { before ≤ most }
    ensures part { Part (λ bytes. in_view (number_within most before bytes)) result reader.old
        reader.new (S.seen source.old) (S.seen source.new) }
    ensures few { IfOk result (λ _. length reader.new.ahead ≤ least - 4) }
    ensures near { IfOk result (λ _. reader.new.place ≤ reader.old.place + 1100) }
    ensures most { IfOk result (λ number. before + number ≤ most) }
{
    let at = reader.place;
    let number = reader.next::<u32, S>(alloc, source, least)?;
    if number > most - before {
        return Err(SnapshotFault::Bad {
            at,
            why: ViewWhy::Field,
        });
    }
    Ok(number)
}

/// So many objects behind their ids. Behind them comes a number at least.
pub fn read_objects<S: Source>(
    alloc: Global,
    reader: &mut Reader,
    source: &mut S,
    count: u32,
) -> Result<PlacedList, SnapshotFault>
    requires near { reader.old.place ≤ 2 ^ 40 }
    requires few { length reader.old.ahead ≤ 55 * count + 4 }
    requires count { count ≤ 2 ^ 20 }
    ensures part { Part (objects_at count None) result reader.old reader.new
        (S.seen source.old) (S.seen source.new) }
    ensures few { IfOk result (λ _. length reader.new.ahead ≤ 4) }
    ensures near { IfOk result (λ _. reader.new.place ≤ reader.old.place + 2200 * count) }
    ensures long { IfOk result (λ objects. length objects ≡ count) }
{
    let mut objects = PlacedList::new(alloc);
    let mut last = None;
    'each: for i in 0..count {
        let least = PLACED_BYTES * (count - i) as usize + NUMBER_BYTES;
        let (id, object) = read_placed(alloc, reader, source, least, last)?;
        last = Some(id);
        objects.push(id, object)?;
    }
    Ok(objects)
}

/// An object behind its id, which is above the last one.
fn read_placed<S: Source>(
    alloc: Global,
    reader: &mut Reader,
    source: &mut S,
    least: usize,
    last: Option<Stamp>,
) -> Result<(Stamp, Object), SnapshotFault>
    requires near { reader.old.place ≤ 2 ^ 60 }
    requires few { length reader.old.ahead ≤ least }
    requires least { 7 ≤ least }
    ensures part { Part (placed_at last) result reader.old reader.new
        (S.seen source.old) (S.seen source.new) }
    ensures few { IfOk result (λ _. length reader.new.ahead ≤ least - 55) }
    ensures near { IfOk result (λ _. reader.new.place ≤ reader.old.place + 2200) }
{
    let at = reader.place;
    let id = reader.next::<Stamp, S>(alloc, source, least)?;
    if !is_above(last, id) {
        return Err(SnapshotFault::Bad {
            at,
            why: ViewWhy::Order,
        });
    }
    let object = reader.next::<Object, S>(alloc, source, least - ID_BYTES)?;
    Ok((id, object))
}

/// So many kept events, where that is known of the sites. They are the last part.
pub fn read_kept<S: Source>(
    alloc: Global,
    reader: &mut Reader,
    source: &mut S,
    known: &[Known],
    count: u32,
) -> Result<EventList, SnapshotFault>
    requires near { reader.old.place ≤ 2 ^ 50 }
    requires few { length reader.old.ahead ≤ 17 * count }
    requires count { count ≤ 2 ^ 20 }
    ensures part { Part (all_kept_at known.now count None) result reader.old reader.new
        (S.seen source.old) (S.seen source.new) }
    ensures few { IfOk result (λ _. length reader.new.ahead ≤ 0) }
    ensures near { IfOk result (λ _. reader.new.place ≤ reader.old.place + 1100 * count) }
{
    let line = least_sure(known);
    let mut kept = EventList::new(alloc);
    let mut last = None;
    'each: for i in 0..count {
        let least = LEAST_EVENT * (count - i) as usize;
        let event = read_event(alloc, reader, source, least, known, line, last)?;
        last = Some(event.stamp());
        kept.push(event)?;
    }
    Ok(kept)
}

/// A kept event, whose stamp is above the last one, and which is bounded by what is known.
fn read_event<S: Source>(
    alloc: Global,
    reader: &mut Reader,
    source: &mut S,
    least: usize,
    known: &[Known],
    line: u64,
    last: Option<Stamp>,
) -> Result<Event, SnapshotFault>
    requires near { reader.old.place ≤ 2 ^ 60 }
    requires few { length reader.old.ahead ≤ least }
    requires line { line ≡ least_sure known.now }
    ensures part { Part (kept_at known.now last) result reader.old reader.new
        (S.seen source.old) (S.seen source.new) }
    ensures few { IfOk result (λ _. length reader.new.ahead ≤ least - 17) }
    ensures near { IfOk result (λ _. reader.new.place ≤ reader.old.place + 1100) }
{
    let at = reader.place;
    let event = reader.next::<Event, S>(alloc, source, least)?;
    match kept_fault(known, line, last, &event) {
        Some(why) => Err(SnapshotFault::Bad { at, why }),
        None => Ok(event),
    }
}

/// Why the event isn't a kept one behind that last one, if it isn't.
fn kept_fault(known: &[Known], line: u64, last: Option<Stamp>, event: &Event) -> Option<ViewWhy>
    requires { line ≡ least_sure known.now }
    ensures { result ≡ kept_fault known.now last event.now }
{
    if !is_above(last, event.stamp()) {
        return Some(ViewWhy::Order);
    }
    if !is_bounded(known, line, event) {
        return Some(ViewWhy::Bound);
    }
    None
}
