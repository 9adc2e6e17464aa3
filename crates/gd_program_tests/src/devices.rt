//! Each call of each device of a node, failing in turn: how the node ends, what is printed, which frames are tried, and
//! which log its journal holds.

use crate::frames::{BEAT, Entry, FIRST, SECOND, link_with};
use crate::nodes::{Node, answered, answered_failing};
use crate::over::ran_over;
use gd_outside::{Call, Fail, Status};
use std::alloc::{AllocError, Global};
use std::test;

/// Polls and edits, in front of each of which the input is read.
const LINES: [&str; 4] = [
    "poll\n",
    "poll\n",
    "create rect 0 0 10 10\n",
    "create rect 5 5 10 10\n",
];

/// How many bytes of the input are read at a time.
const BUFFER: usize = 73_728;

/// A frame with an event, one without, a failure, and a frame with another event.
const ENTRIES: [Entry; 4] = [Some(FIRST), Some(BEAT), None, Some(SECOND)];

/// What is printed where no call fails: a line, and then one for each event and for each poll.
const TEXT: &str =
    "ready 1 of 2\necho 1.2 applied create rect 0 0 10 10\nlink fault after 2\necho 2.2 applied move 1.2 1 1\npolled 1\nok 3.1\nok 4.1\n";

/// The front of that text, up to so many lines.
const PRINTED: [usize; 8] = [0, 13, 52, 71, 101, 110, 117, 124];

/// What a replay of the journal prints: where there is no log; of a log without events; and of the logs with one more
/// event each.
const NO_LOG: &str = "bad log at 0: Short\n";

const NONE: &str = "end 0\n";

const ONE: &str = "rect 1.2 in - at 0 0 size 10 10 stroke 000000 fill none width 1\nend 1\n";

const TWO: &str = "rect 1.2 in - at 1 1 size 10 10 stroke 000000 fill none width 1\nend 1\n";

const THREE: &str =
    "rect 1.2 in - at 1 1 size 10 10 stroke 000000 fill none width 1\nrect 3.1 in - at 0 0 size 10 10 stroke 000000 fill none width 1\nend 2\n";

const FOUR: &str =
    "rect 1.2 in - at 1 1 size 10 10 stroke 000000 fill none width 1\nrect 3.1 in - at 0 0 size 10 10 stroke 000000 fill none width 1\nrect 4.1 in - at 5 5 size 10 10 stroke 000000 fill none width 1\nend 3\n";

/// A call that fails, by its kind and its number; how the run ends; how many lines are printed; how many frames are
/// tried; and what a replay of the journal prints.
type Row = (Call, u64, Status, usize, usize, &'static str);

const READS: [Row; 6] = [
    (Call::Read, 1, Status::ReadFault, 1, 0, NONE),
    (Call::Read, 2, Status::ReadFault, 3, 1, ONE),
    (Call::Read, 3, Status::ReadFault, 5, 2, TWO),
    (Call::Read, 4, Status::ReadFault, 6, 3, THREE),
    (Call::Read, 5, Status::ReadFault, 7, 4, FOUR),
    (Call::Read, 6, Status::Done, 7, 4, FOUR),
];

const WRITES: [Row; 8] = [
    (Call::Write, 1, Status::WriteFault, 0, 0, NONE),
    (Call::Write, 2, Status::WriteFault, 1, 0, ONE),
    (Call::Write, 3, Status::WriteFault, 2, 1, ONE),
    (Call::Write, 4, Status::WriteFault, 3, 1, TWO),
    (Call::Write, 5, Status::WriteFault, 4, 2, TWO),
    (Call::Write, 6, Status::WriteFault, 5, 2, THREE),
    (Call::Write, 7, Status::WriteFault, 6, 3, FOUR),
    (Call::Write, 8, Status::Done, 7, 4, FOUR),
];

/// An event is there from its open gate on, which is the second of its two writes.
const JOURNAL_WRITES: [Row; 10] = [
    (Call::WriteAt, 1, Status::JournalFault, 0, 0, NO_LOG),
    (Call::WriteAt, 2, Status::JournalFault, 1, 0, NONE),
    (Call::WriteAt, 3, Status::JournalFault, 1, 0, NONE),
    (Call::WriteAt, 4, Status::JournalFault, 3, 1, ONE),
    (Call::WriteAt, 5, Status::JournalFault, 3, 1, ONE),
    (Call::WriteAt, 6, Status::JournalFault, 5, 2, TWO),
    (Call::WriteAt, 7, Status::JournalFault, 5, 2, TWO),
    (Call::WriteAt, 8, Status::JournalFault, 6, 3, THREE),
    (Call::WriteAt, 9, Status::JournalFault, 6, 3, THREE),
    (Call::WriteAt, 10, Status::Done, 7, 4, FOUR),
];

const JOURNAL_SYNCS: [Row; 12] = [
    (Call::Create, 1, Status::JournalFault, 0, 0, NO_LOG),
    (Call::Create, 2, Status::Done, 7, 4, FOUR),
    (Call::Sync, 1, Status::JournalFault, 0, 0, NONE),
    (Call::Sync, 2, Status::JournalFault, 1, 0, NONE),
    (Call::Sync, 3, Status::JournalFault, 1, 0, ONE),
    (Call::Sync, 4, Status::JournalFault, 3, 1, ONE),
    (Call::Sync, 5, Status::JournalFault, 3, 1, TWO),
    (Call::Sync, 6, Status::JournalFault, 5, 2, TWO),
    (Call::Sync, 7, Status::JournalFault, 5, 2, THREE),
    (Call::Sync, 8, Status::JournalFault, 6, 3, THREE),
    (Call::Sync, 9, Status::JournalFault, 6, 3, FOUR),
    (Call::Sync, 10, Status::Done, 7, 4, FOUR),
];

/// A frame that is lost was tried too, and changes nothing.
const LINKS: [Row; 7] = [
    (Call::Open, 1, Status::LinkFault, 0, 0, NO_LOG),
    (Call::Open, 2, Status::Done, 7, 4, FOUR),
    (Call::Send, 1, Status::Done, 7, 4, FOUR),
    (Call::Send, 2, Status::Done, 7, 4, FOUR),
    (Call::Send, 3, Status::Done, 7, 4, FOUR),
    (Call::Send, 4, Status::Done, 7, 4, FOUR),
    (Call::Send, 5, Status::Done, 7, 4, FOUR),
];

/// The lines, and behind each of them lines of spaces up to the next read.
fn input(alloc: Global) -> Result<Vec<u8>, AllocError> {
    let mut bytes = Vec::with_capacity(alloc, 4 * BUFFER)?;
    for line in LINES {
        bytes.extend_from_slice(line.as_bytes())?;
        for place in line.len()..BUFFER {
            bytes.push(if place % 1024 == 1023 { b'\n' } else { b' ' })?;
        }
    }
    Ok(bytes)
}

/// The node with these entries, in which that call fails.
fn failing(alloc: Global, call: Call, number: u64) -> Result<Node, AllocError> {
    let fails = [Fail { call, number }];
    let link = link_with(alloc, &ENTRIES, &fails)?;
    answered_failing(alloc, (1, 2), input(alloc)?.as_slice(), link, &fails)
}

/// What a replay of the journal prints.
fn replayed(alloc: Global, node: &Node) -> Result<String, AllocError> {
    let (_, output) = ran_over(alloc, &["replay"], node.journal.bytes())?;
    let text = std::str::from_utf8(output.bytes()).unwrap_or("no text");
    String::from_str(alloc, text)
}

#[test]
fn each_call_of_each_device_fails_in_turn(rt: HostRuntime) -> Result<(), test::Fail> {
    let tables: [&[Row]; 5] = [&READS, &WRITES, &JOURNAL_WRITES, &JOURNAL_SYNCS, &LINKS];
    for table in tables {
        for (call, number, status, lines, tries, drawing) in table {
            let node = failing(rt.alloc(), *call, *number)?;
            let printed = PRINTED.get(*lines).copied().unwrap_or(0);
            assert_eq!(rt; node.status, *status, "{call:?} {number}");
            assert!(rt;
                TEXT.as_bytes().get(..printed) == Some(node.output.bytes()),
                "{call:?} {number}"
            );
            assert_eq!(rt; node.tries(), *tries, "{call:?} {number}");
            let shown = replayed(rt.alloc(), &node)?;
            assert_eq!(rt; shown.as_str(), *drawing, "{call:?} {number}");
        }
    }
    Ok(())
}

/// The lines of the node without what is between them.
const BARE_LINES: &[u8] = b"poll\npoll\ncreate rect 0 0 10 10\ncreate rect 5 5 10 10\nquit\n";

/// Where the second event of site 2 isn't received.
const WITHOUT_SECOND: &str =
    "rect 1.2 in - at 0 0 size 10 10 stroke 000000 fill none width 1\nrect 2.1 in - at 0 0 size 10 10 stroke 000000 fill none width 1\nrect 3.1 in - at 5 5 size 10 10 stroke 000000 fill none width 1\nend 3\n";

/// A failure in front of each entry, and behind the last one.
type Received = (&'static [Entry], &'static str, &'static str);

const RECEIVES: [Received; 5] = [
    (
        &[None, Some(FIRST), Some(BEAT), None, Some(SECOND)],
        "ready 1 of 2\nlink fault after 0\necho 1.2 applied create rect 0 0 10 10\nlink fault after 2\nok 2.1\nok 3.1\n",
        WITHOUT_SECOND,
    ),
    (
        &[Some(FIRST), None, Some(BEAT), None, Some(SECOND)],
        "ready 1 of 2\necho 1.2 applied create rect 0 0 10 10\nlink fault after 1\nlink fault after 1\nok 2.1\nok 3.1\n",
        WITHOUT_SECOND,
    ),
    (
        &[Some(FIRST), Some(BEAT), None, None, Some(SECOND)],
        "ready 1 of 2\necho 1.2 applied create rect 0 0 10 10\nlink fault after 2\nlink fault after 0\nok 2.1\nok 3.1\n",
        WITHOUT_SECOND,
    ),
    (&ENTRIES, TEXT, FOUR),
    (
        &[Some(FIRST), Some(BEAT), None, Some(SECOND), None],
        "ready 1 of 2\necho 1.2 applied create rect 0 0 10 10\nlink fault after 2\necho 2.2 applied move 1.2 1 1\nlink fault after 1\nok 3.1\nok 4.1\n",
        FOUR,
    ),
];

#[test]
fn each_receive_fails_in_turn(rt: HostRuntime) -> Result<(), test::Fail> {
    for (entries, text, drawing) in RECEIVES {
        let link = link_with(rt.alloc(), entries, &[])?;
        let node = answered(rt.alloc(), (1, 2), BARE_LINES, link)?;
        assert_eq!(rt; node.status, Status::Done);
        assert_eq!(rt; node.text(), text);
        assert_eq!(rt; node.tries(), 4);
        let shown = replayed(rt.alloc(), &node)?;
        assert_eq!(rt; shown.as_str(), drawing);
    }
    Ok(())
}

/// A node to which one edit is typed, in which that call fails: how it ends, and what the journal holds.
const EDITS: [(Call, u64, Status, &str); 3] = [
    (
        Call::Write,
        2,
        Status::WriteFault,
        "rect 1.1 in - at 0 0 size 10 10 stroke 000000 fill none width 1\nend 1\n",
    ),
    (Call::Sync, 2, Status::JournalFault, NONE),
    (Call::Read, 1, Status::ReadFault, NONE),
];

#[test]
fn a_fault_at_an_edit_sends_nothing(rt: HostRuntime) -> Result<(), test::Fail> {
    for (call, number, status, drawing) in EDITS {
        let fails = [Fail { call, number }];
        let link = link_with(rt.alloc(), &[], &fails)?;
        let lines = b"create rect 0 0 10 10\n";
        let node = answered_failing(rt.alloc(), (1, 2), lines, link, &fails)?;
        assert_eq!(rt; node.status, status, "{call:?}");
        assert_eq!(rt; node.text(), "ready 1 of 2\n", "{call:?}");
        assert_eq!(rt; node.tries(), 0, "{call:?}");
        let shown = replayed(rt.alloc(), &node)?;
        assert_eq!(rt; shown.as_str(), drawing, "{call:?}");
    }
    Ok(())
}
