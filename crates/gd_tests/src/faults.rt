//! Faults in words, which no run of the program prints.

use gd_base::{LogWhy, ViewWhy};
use gd_handover::SnapshotFault;
use gd_logs::{LogFault, ReadError};
use std::rt::HostRuntime;
use std::test::Fail;

#[test]
fn faults_of_logs_are_told_in_words(rt: HostRuntime) -> Result<(), Fail> {
    let turn = LogFault::Bad {
        at: 48,
        why: LogWhy::Turn,
    };
    let rows = [
        (turn, "an event is not the next one of its site, at byte 48"),
        (LogFault::Read, "a read failed"),
    ];
    for (fault, text) in rows {
        let told = format!(in rt.alloc(); "{}", ReadError::Log(fault))?;
        assert_eq!(rt; told.as_str(), text);
    }
    Ok(())
}

#[test]
fn faults_of_snapshots_are_told_in_words(rt: HostRuntime) -> Result<(), Fail> {
    let short = SnapshotFault::Bad {
        at: 122,
        why: ViewWhy::Short,
    };
    for (fault, words) in [
        (short, "the bytes end within a field, at byte 122"),
        (SnapshotFault::Read, "a read failed"),
        (SnapshotFault::NoMemory, "out of memory"),
    ] {
        let text = format!(in rt.alloc(); "{fault}")?;
        assert_eq!(rt; text.as_str(), words);
    }
    Ok(())
}
