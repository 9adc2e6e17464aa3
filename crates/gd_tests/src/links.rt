//! That links in memory are made, and take what they keep, where memory is ample.

use gd_outside::{Call, Fail, Link, MemoryLink, Received, Sent, SureLink, Word, WordList};
use std::alloc::{AllocError, Global};
use std::process::Abort;
use std::rt::HostRuntime;
use std::test;

/// As much as two addresses of one byte and two frames of two take.
const ROOM: usize = 10;

fn words_of(alloc: Global, texts: &[&str]) -> Result<WordList, AllocError> {
    let mut words = WordList::new(alloc);
    for text in texts {
        words.push(Word::new(alloc, text)?)?;
    }
    Ok(words)
}

/// Receives by a buffer of three bytes have to come to these, each with these bytes.
fn expect_entries<R: Abort, N: Link>(rt: &R, link: &mut N, wanted: &[(Received, &[u8])]) {
    let mut buf = [0; 3];
    for (received, bytes) in wanted {
        assert_eq!(rt; link.receive(&mut buf), *received);
        assert!(rt; buf.starts_with(bytes), "at {bytes:?}");
    }
}

/// The frames that were tried have to be these.
fn expect_tried<R: Abort>(rt: &R, link: &SureLink, wanted: &[(u8, &[u8])]) {
    for (k, frame) in wanted.iter().enumerate() {
        assert!(rt; link.tried(k) == Some(*frame), "at {k}");
    }
    assert!(rt; link.tried(wanted.len()).is_none());
}

#[test]
fn entries_come_in_the_order_in_which_they_were_added(rt: HostRuntime) -> Result<(), test::Fail> {
    let mut link = MemoryLink::new(rt.alloc(), ROOM, &[])?;
    link.add_datagram(b"ab")?;
    link.add_nothing()?;
    link.add_failure()?;
    link.add_datagram(b"cdef")?;
    link.add_datagram(b"ghi")?;
    link.add_datagram(b"")?;
    let wanted: [(Received, &[u8]); 7] = [
        (Received::Datagram(2), b"ab"),
        (Received::Nothing, b""),
        (Received::Failed, b""),
        (Received::TooLong, b""),
        (Received::Datagram(3), b"ghi"),
        (Received::Datagram(0), b""),
        (Received::Nothing, b""),
    ];
    expect_entries(&rt, &mut link, &wanted);
    Ok(())
}

#[test]
fn a_link_fails_where_its_list_says_so(rt: HostRuntime) -> Result<(), test::Fail> {
    let fails = [
        Fail {
            call: Call::Open,
            number: 1,
        },
        Fail {
            call: Call::Send,
            number: 2,
        },
    ];
    let mut link = MemoryLink::new(rt.alloc(), ROOM, &fails)?;
    let addresses = words_of(rt.alloc(), &["A", "B"])?;
    assert!(rt; link.open(&addresses, 1).is_err());
    assert!(rt; link.open(&addresses, 1).is_ok());
    for wanted in [Sent::Out, Sent::Lost, Sent::Out] {
        assert_eq!(rt; link.send(2, b"ab"), wanted);
    }
    Ok(())
}

#[test]
fn frames_are_kept_up_to_the_room(rt: HostRuntime) -> Result<(), test::Fail> {
    let mut link = SureLink::new(rt.alloc(), ROOM)?;
    link.add_nothing()?;
    link.add_datagram(b"ab")?;
    assert!(rt; link.open(&words_of(rt.alloc(), &["A", "B"])?, 1).is_ok());
    for frame in [b"cd", b"ef", b"gh"] {
        assert_eq!(rt; link.send(2, frame), Sent::Out);
    }
    expect_tried(&rt, &link, &[(2, b"cd"), (2, b"ef")]);
    let wanted: [(Received, &[u8]); 2] = [(Received::Nothing, b""), (Received::Datagram(2), b"ab")];
    expect_entries(&rt, &mut link, &wanted);
    Ok(())
}
