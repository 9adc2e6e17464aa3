//! Nodes that go on from their journals: what a crash left, and each call of each device failing in turn.

use crate::frames::ROOM;
use crate::nodes::{Node, answered_failing, gone_on};
use crate::over::ran_over;
use gd_outside::{Call, Fail, MemoryJournal, MemoryLink, Status};
use std::alloc::{AllocError, Global};
use std::test;

/// The log of session 7, site 1 of 2, with a rect of site 2 and its check. Its closing gate stands at 44.
const ONE: [u8; 45] = [
    b'G', b'D', b'O', b'L', 7, 0, 0, 0, 7, 1, 2, 0xC3, 0, 0, 0, 0, 0, 1, 2, 0, 1, 1, 1, 0, 0, 0, 0,
    0, 0, 0, 0, 0, 0, 0, 10, 0, 0, 0, 10, 0, 0xC2, 0x18, 0xFB, 0xBA, 0,
];

/// What is typed, and what is printed, where no call fails.
const LINES: &[u8] = b"status\ncreate rect 0 0 10 10\nstatus\n";

const TEXT: &str =
    "ready 1 of 2\nheld 1 kept 0 line 1 clock 1\nok 2.1\nheld 2 kept 1 line 1 clock 2\n";

fn quiet(alloc: Global) -> Result<MemoryLink, AllocError> {
    MemoryLink::new(alloc, ROOM, &[])
}

/// A node whose journal failed at its second sync, in the midst of its first event.
fn torn(alloc: Global) -> Result<Node, AllocError> {
    let fails = [Fail {
        call: Call::Sync,
        number: 2,
    }];
    answered_failing(
        alloc,
        (1, 2),
        b"create rect 0 0 10 10\n",
        quiet(alloc)?,
        &fails,
    )
}

#[test]
fn what_a_crash_left_is_gone_on_from(rt: HostRuntime) -> Result<(), test::Fail> {
    let node = torn(rt.alloc())?;
    assert_eq!(rt; node.status, Status::JournalFault);
    for k in [0, 1] {
        for fill in [0, 0xC3, 0xFF] {
            if node.journal.is_past() {
                assert!(rt; false, "too little room");
                return Ok(());
            }
            let left = node.journal.image(rt.alloc(), k, fill)?;
            let link = quiet(rt.alloc())?;
            let again = gone_on(rt.alloc(), (1, 2), left, b"status\n", link, &[])?;
            assert_eq!(rt;
                again.text(),
                "ready 1 of 2\nheld 0 kept 0 line 0 clock 0\n",
                "{} {}",
                k,
                fill
            );
        }
    }
    Ok(())
}

/// The fronts of the text, of one line and of two.
const READY: &str = "ready 1 of 2\n";

const HELD: &str = "ready 1 of 2\nheld 1 kept 0 line 1 clock 1\n";

/// What a replay prints of the log that was found, and of the one with the new rect.
const FOUND: &str = "rect 1.2 in - at 0 0 size 10 10 stroke 000000 fill none width 1\nend 1\n";

const ADDED: &str =
    "rect 1.2 in - at 0 0 size 10 10 stroke 000000 fill none width 1\nrect 2.1 in - at 0 0 size 10 10 stroke 000000 fill none width 1\nend 2\n";

/// A call that fails, by its kind and its number; how the run ends; what is printed; and what a replay of the journal
/// prints then.
type Row = (Call, u64, Status, &'static str, &'static str);

const FAULTS: [Row; 16] = [
    (Call::Open, 1, Status::LinkFault, "", FOUND),
    (Call::OpenFile, 1, Status::JournalFault, "", FOUND),
    (Call::OpenFile, 2, Status::Done, TEXT, ADDED),
    (Call::Sync, 1, Status::JournalFault, "", FOUND),
    (Call::Sync, 2, Status::JournalFault, HELD, FOUND),
    (Call::Sync, 3, Status::JournalFault, HELD, ADDED),
    (Call::Sync, 4, Status::Done, TEXT, ADDED),
    (Call::Len, 1, Status::JournalFault, "", FOUND),
    (Call::ReadAt, 1, Status::JournalFault, "", FOUND),
    (Call::ReadAt, 2, Status::Done, TEXT, ADDED),
    (Call::Create, 1, Status::Done, TEXT, ADDED),
    (Call::WriteAt, 1, Status::JournalFault, HELD, FOUND),
    (Call::WriteAt, 2, Status::JournalFault, HELD, FOUND),
    (Call::Read, 1, Status::ReadFault, READY, FOUND),
    (Call::Write, 1, Status::WriteFault, "", FOUND),
    (Call::Write, 3, Status::WriteFault, HELD, ADDED),
];

#[test]
fn each_call_of_each_device_fails_in_turn(rt: HostRuntime) -> Result<(), test::Fail> {
    for (call, number, status, printed, drawing) in FAULTS {
        let fails = [Fail { call, number }];
        let journal = MemoryJournal::holding(rt.alloc(), ROOM, "old", &ONE, &fails)?;
        let link = MemoryLink::new(rt.alloc(), ROOM, &fails)?;
        let node = gone_on(rt.alloc(), (1, 2), journal, LINES, link, &fails)?;
        assert_eq!(rt; node.status, status, "{:?} {}", call, number);
        assert_eq!(rt; node.text(), printed, "{:?} {}", call, number);
        let (ended, output) = ran_over(rt.alloc(), &["replay"], node.journal.bytes())?;
        assert_eq!(rt; ended, Status::Done, "{:?} {}", call, number);
        assert_eq!(rt; output.bytes(), drawing.as_bytes(), "{:?} {}", call, number);
    }
    Ok(())
}
