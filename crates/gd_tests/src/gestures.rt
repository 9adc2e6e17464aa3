//! What a crash leaves of two events that are added to a log together: both of them, or none.

use gd_base::Version;
use gd_logs::{LogWriter, Records, WholeLog, read_log, read_whole_of};
use gd_outside::{Call, Fail, Journal, MemoryJournal, SureSource};
use gd_wire::Drawings;
use std::alloc::{AllocError, Global};
use std::process::Abort;
use std::rt::HostRuntime;
use std::test;

/// The log of session 7, which site 1 of 2 keeps, with a rect of site 2 and an ellipse of site 1, each with its check
/// behind it.
const TIE: &[u8] =
    b"GDOL\x07\x00\x00\x00\x07\x01\x02\xC3\x00\x00\x00\x00\x00\x01\x02\x00\x01\x01\x01\x00\x00\x00\x05\x00\x00\x00\x05\x00\x00\x00\x0A\x00\x00\x00\x0A\x00\x4F\x60\x36\x53\xC3\x00\x00\x00\x00\x00\x01\x01\x00\x01\x01\x02\x00\x00\x00\x00\x00\x00\x00\x00\x00\x00\x00\x14\x00\x00\x00\x14\x00\xFD\xF1\x13\x4D\x00";

/// The places of its gates in front of both events and behind them, and its length.
const GATE: usize = 11;

const LAST_GATE: usize = 77;

const WHOLE: usize = 78;

const NAME: &str = "tie.log";

/// Room for the name and the log.
const ROOM: usize = 100;

/// The log up to that length, where its last byte is a closed gate, and so is the one at that place.
fn prefix(alloc: Global, length: usize, closed: usize) -> Result<Vec<u8>, AllocError> {
    let mut bytes = TIE.to_vec(alloc)?;
    bytes.truncate(length);
    close(&mut bytes, closed);
    close(&mut bytes, length.saturating_sub(1));
    Ok(bytes)
}

/// Closes the gate at that place, if there is one.
fn close(bytes: &mut Vec<u8>, place: usize) {
    if let Some(gate) = bytes.get_mut(place) {
        *gate = 0;
    }
}

/// Starts a log, and adds the events of that one together, up to the first call that fails. How many of these two were
/// done.
fn write_together<J: Journal>(
    alloc: Global,
    journal: &mut J,
    log: &WholeLog,
) -> Result<Option<usize>, AllocError> {
    let Version::Three = log.header.version() else {
        return Ok(None);
    };
    let Ok(mut writer) = LogWriter::start(journal, NAME, &log.header) else {
        return Ok(Some(0));
    };
    if writer.place() != GATE as u64 {
        return Ok(Some(0));
    }
    let mut records = Records::new(alloc, &writer);
    for event in log.events.as_slice() {
        records.add(event)?;
    }
    if records.is_empty() {
        return Ok(None);
    }
    match writer.append_all(journal, records) {
        Ok(()) => Ok(Some(2)),
        Err(_) => Ok(Some(1)),
    }
}

/// A journal to which the two events were written so, up to the call that fails.
fn written(
    alloc: Global,
    call: Call,
    number: u64,
) -> Result<(MemoryJournal, Option<usize>), AllocError> {
    let mut journal = MemoryJournal::new(alloc, ROOM, &[Fail { call, number }])?;
    let mut source = SureSource::new(alloc, TIE)?;
    let done = match read_whole_of::<Drawings, SureSource>(alloc, &mut source) {
        Ok(log) => write_together(alloc, &mut journal, &log)?,
        Err(_) => None,
    };
    Ok((journal, done))
}

/// How many events these bytes hold, as a log.
fn count(alloc: Global, bytes: &[u8]) -> Result<Option<usize>, AllocError> {
    let mut source = SureSource::new(alloc, bytes)?;
    match read_log(alloc, &mut source) {
        Ok((_, events)) => Ok(Some(events.as_slice().len())),
        Err(_) => Ok(None),
    }
}

/// A call that fails; how many steps were done then; how long the journal is, which gate of it is closed, and how many
/// events it has.
#[derive(Clone, Copy)]
struct Case {
    call: Call,
    number: u64,
    done: usize,
    length: usize,
    closed: usize,
    events: usize,
}

fn case_of(
    call: Call,
    number: u64,
    done: usize,
    length: usize,
    closed: usize,
    events: usize,
) -> Case {
    Case {
        call,
        number,
        done,
        length,
        closed,
        events,
    }
}

/// These bytes have to hold so many events, as a log.
fn expect_count<R: Abort>(
    rt: &R,
    alloc: Global,
    bytes: &[u8],
    events: usize,
) -> Result<(), AllocError> {
    let found = count(alloc, bytes)?;
    assert_eq!(rt; found, Some(events));
    Ok(())
}

/// Where that call fails so much has to be done, and the journal has to be so.
fn expect_case<R: Abort>(rt: &R, alloc: Global, case: Case) -> Result<(), AllocError> {
    let (journal, done) = written(alloc, case.call, case.number)?;
    assert_eq!(rt; done, Some(case.done), "at {:?} {}", case.call, case.number);
    let expected = prefix(alloc, case.length, case.closed)?;
    assert_eq!(rt;
        journal.bytes(),
        expected.as_slice(),
        "at {:?} {}",
        case.call,
        case.number
    );
    expect_count(rt, alloc, journal.bytes(), case.events)
}

/// An image of what is left where that sync fails, with this fill behind its first k writes, has to hold so many
/// events.
fn expect_image<R: Abort>(
    rt: &R,
    alloc: Global,
    sync: u64,
    k: u32,
    fill: u8,
    events: usize,
) -> Result<(), AllocError> {
    let (journal, _) = written(alloc, Call::Sync, sync)?;
    assert!(rt; !journal.is_past());
    let image = journal.image(alloc, k, fill)?;
    expect_count(rt, alloc, image.bytes(), events)
}

// There are two writes and two syncs behind those of the header, however many events are added.
#[test]
fn a_gesture_is_there_or_not(rt: HostRuntime) -> Result<(), test::Fail> {
    let cases = [
        case_of(Call::WriteAt, 2, 1, GATE + 1, GATE, 0),
        case_of(Call::Sync, 2, 1, WHOLE, GATE, 0),
        case_of(Call::WriteAt, 3, 1, WHOLE, GATE, 0),
        case_of(Call::Sync, 3, 1, WHOLE, LAST_GATE, 2),
        case_of(Call::WriteAt, 4, 2, WHOLE, LAST_GATE, 2),
        case_of(Call::Sync, 4, 2, WHOLE, LAST_GATE, 2),
    ];
    for case in cases {
        expect_case(&rt, rt.alloc(), case)?;
    }
    Ok(())
}

// Where a sync fails the write before it may have landed or not, and left any bytes in its range, but for a gate alone,
// which has then its byte or the one before. No image has one event alone.
#[test]
fn each_image_of_a_crash_has_the_gesture_or_not(rt: HostRuntime) -> Result<(), test::Fail> {
    let rows: [(u64, u32, u8, usize); 12] = [
        (2, 0, 0x00, 0),
        (2, 0, 0xC3, 0),
        (2, 0, 0xFF, 0),
        (2, 1, 0x00, 0),
        (2, 1, 0xC3, 0),
        (2, 1, 0xFF, 0),
        (3, 0, 0x00, 0),
        (3, 0, 0xC3, 0),
        (3, 0, 0xFF, 0),
        (3, 1, 0x00, 2),
        (3, 1, 0xC3, 2),
        (3, 1, 0xFF, 2),
    ];
    for (sync, k, fill, events) in rows {
        expect_image(&rt, rt.alloc(), sync, k, fill, events)?;
    }
    Ok(())
}
