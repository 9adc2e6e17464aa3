//! That a journal in memory is made, and takes what it keeps, where memory is ample.

use gd_outside::{Call, Fail, Failed, Journal, MemoryJournal};
use std::alloc::{AllocError, Global};
use std::process::Abort;
use std::rt::HostRuntime;
use std::test;

/// As much as all pieces take that are written.
const ROOM: usize = 9;

fn fail_of(call: Call, number: u64) -> Fail {
    Fail { call, number }
}

/// Puts the piece there, if the contents reach so far.
fn put(journal: &mut MemoryJournal, pos: u64, piece: &[u8]) -> Result<(), Failed> {
    if pos > journal.bytes().len() as u64 {
        return Err(Failed);
    }
    journal.write_at(pos, piece)
}

/// A journal with four bytes that were synced, two writes since then, and a third one that failed.
fn torn<R: Abort>(rt: &R, alloc: Global) -> Result<MemoryJournal, AllocError> {
    let fails = [fail_of(Call::WriteAt, 3)];
    let mut journal = MemoryJournal::holding(alloc, ROOM, "a", b"abcd", &fails)?;
    assert!(rt; put(&mut journal, 1, b"XY").is_ok());
    assert!(rt; put(&mut journal, 4, b"ef").is_ok());
    assert!(rt; put(&mut journal, 0, b"Z").is_err());
    Ok(journal)
}

/// The image in which the first k writes stand as written has to have these contents. The last one is of one byte over
/// another one, and isn't torn.
fn expect_image<R: Abort>(
    rt: &R,
    alloc: Global,
    journal: &MemoryJournal,
    k: u32,
    fill: u8,
    wanted: &[u8],
) -> Result<(), AllocError> {
    assert!(rt; !journal.is_past());
    let image = journal.image(alloc, k, fill)?;
    assert_eq!(rt; image.bytes(), wanted, "at {k} {fill}");
    assert!(rt; !image.is_past(), "at {k} {fill}");
    Ok(())
}

/// A read of at most three bytes there has to hand out these.
fn expect_bytes<R: Abort>(rt: &R, journal: &mut MemoryJournal, pos: u64, wanted: &[u8]) {
    let mut buf = [0; 3];
    let Ok(count) = journal.read_at(pos, &mut buf) else {
        assert!(rt; false, "at {pos}");
        return;
    };
    assert_eq!(rt; &buf[..count], wanted, "at {pos}");
}

#[test]
fn an_image_has_the_first_writes_since_the_sync(rt: HostRuntime) -> Result<(), test::Fail> {
    let mut journal = torn(&rt, rt.alloc())?;
    assert_eq!(rt; journal.bytes(), b"aXYdef".as_slice());
    let rows: [(u32, u8, &[u8]); 7] = [
        (0, 0x00, b"a\x00\x00d\x00\x00"),
        (0, 0xFF, b"a\xFF\xFFd\xFF\xFF"),
        (1, 0x00, b"aXYd\x00\x00"),
        (1, 0xFF, b"aXYd\xFF\xFF"),
        (2, 0x00, b"aXYdef"),
        (2, 0xFF, b"aXYdef"),
        (3, 0x00, b"ZXYdef"),
    ];
    for (k, fill, wanted) in rows {
        expect_image(&rt, rt.alloc(), &journal, k, fill, wanted)?;
    }
    assert!(rt; journal.sync().is_ok());
    expect_image(&rt, rt.alloc(), &journal, 0, 0xFF, b"aXYdef")?;
    Ok(())
}

#[test]
fn a_journal_that_is_there_fails_where_its_list_says_so(rt: HostRuntime) -> Result<(), test::Fail> {
    let fails = [
        fail_of(Call::OpenFile, 1),
        fail_of(Call::Len, 2),
        fail_of(Call::ReadAt, 2),
    ];
    let mut journal = MemoryJournal::holding(rt.alloc(), ROOM, "a", b"abcde", &fails)?;
    assert!(rt; journal.open("b").is_err());
    assert!(rt; journal.open("b").is_ok());
    assert_eq!(rt; journal.len(), Ok(5));
    assert!(rt; journal.len().is_err());
    expect_bytes(&rt, &mut journal, 1, b"bcd");
    assert!(rt; journal.read_at(1, &mut [0; 3]).is_err());
    expect_bytes(&rt, &mut journal, 3, b"de");
    expect_bytes(&rt, &mut journal, 5, b"");
    Ok(())
}
