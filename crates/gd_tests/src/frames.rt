//! The worked frame of docs/FORMATS.md is read and written, and changes of it are refused, where memory is ample.

use gd_base::{Note, Shape, Stamp, Text, WireFault, WireWhy};
use gd_events::{Event, Op};
use gd_wire::{FrameBytes, FrameError, FrameEvents, Head, read_frame, write_frame};
use std::rt::HostRuntime;
use std::test::Fail;

/// Site 2 of session 7 has made a rect at 0 0, of size 10 10, and holds nothing of site 1, which this is for.
const FRAME: &[u8] =
    b"GDOF\x03\x00\x00\x00\x07\x02\x01\x00\x00\x00\x01\x00\x00\x00\x00\x00\x01\xC2\x18\xFB\xBA\x00\x00\x00\x00\x00\x00\x00\x00\x00\x00\x01\x00\x00\x00\x00\x00\x01\x02\x00\x01\x01\x01\x00\x00\x00\x00\x00\x00\x00\x00\x00\x00\x00\x0A\x00\x00\x00\x0A\x00\x49\xB3\x4D\x30";

const HEAD: Head = Head {
    session: 7,
    from: 2,
    to: 1,
    ack: 0,
    count: 1,
    clock: 1,
    check: 0xBAFB18C2,
};

/// The event of the frame.
fn rect() -> Option<Event> {
    let op = Op::Create {
        kind: Shape::Rect,
        x: 0,
        y: 0,
        w: 10,
        h: 10,
        label: Text::default(),
    };
    Event::new(Stamp::new(1, 2)?, 1, op).ok()
}

/// The bytes of the frame with that event so many times, and whether the last one was put.
fn written(event: &Event, count: usize) -> (FrameBytes, bool) {
    let note = Note {
        number: 0,
        name: None,
        focus: None,
    };
    let mut events = FrameEvents::new();
    let mut put = true;
    for _ in 0..count {
        put = events.push(event);
    }
    let mut out = FrameBytes::new();
    write_frame(HEAD, &note, &events, &mut out);
    (out, put)
}

#[test]
fn a_frame_is_read(rt: HostRuntime) -> Result<(), Fail> {
    match read_frame(rt.alloc(), FRAME) {
        Ok(frame) => {
            assert_eq!(rt; frame.head(), HEAD);
            assert_eq!(rt; frame.events().len(), 1);
        }
        Err(_) => assert!(rt; false, "refused"),
    }
    Ok(())
}

#[test]
fn a_frame_is_written(rt: HostRuntime) -> Result<(), Fail> {
    let Some(rect) = rect() else {
        assert!(rt; false, "an event");
        return Ok(());
    };
    let (out, put) = written(&rect, 1);
    assert!(rt; put);
    assert!(rt; out.as_slice() == FRAME);
    // 40 of 28 bytes fit into 1,144.
    let (out, put) = written(&rect, 40);
    assert!(rt; put);
    assert_eq!(rt; out.as_slice().len(), 36 + 40 * 28 + 4);
    let (out, put) = written(&rect, 41);
    assert!(rt; !put);
    assert_eq!(rt; out.as_slice().len(), 36 + 40 * 28 + 4);
    Ok(())
}

#[test]
fn another_checksum_and_fewer_bytes_are_refused(rt: HostRuntime) -> Result<(), Fail> {
    let mut bytes = FRAME.to_vec(rt.alloc())?;
    if let Some(byte) = bytes.get_mut(63) {
        *byte = 1;
    }
    let check = WireFault {
        at: 64,
        why: WireWhy::Check,
    };
    match read_frame(rt.alloc(), bytes.as_slice()) {
        Ok(_) => assert!(rt; false, "taken"),
        Err(error) => assert_eq!(rt; error, FrameError::Fault(check)),
    }
    let short = WireFault {
        at: 4,
        why: WireWhy::Short,
    };
    match read_frame(rt.alloc(), b"GDOF") {
        Ok(_) => assert!(rt; false, "taken"),
        Err(error) => assert_eq!(rt; error, FrameError::Fault(short)),
    }
    Ok(())
}
