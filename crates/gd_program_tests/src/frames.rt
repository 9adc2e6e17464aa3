//! Frames of site 2 for site 1, in session 7 and without a note; and the entries of a link.

use gd_outside::{Fail, MemoryLink};
use std::alloc::{AllocError, Global};

/// More than any of these nodes tries to send.
pub const ROOM: usize = 100_000;

/// The frame with a rect at 0 0, which is the one event of site 2.
pub const FIRST: &[u8] = b"GDOF\x03\0\0\0\x07\x02\x01\0\0\0\x01\0\0\0\0\0\x01\xC2\x18\xFB\xBA\
    \0\0\0\0\0\0\0\0\0\0\x01\
    \0\0\0\0\0\x01\x02\0\x01\x01\x01\0\0\0\0\0\0\0\0\0\0\0\x0A\0\0\0\x0A\0\
    \x49\xB3\x4D\x30";

/// The same without the event.
pub const BEAT: &[u8] = b"GDOF\x03\0\0\0\x07\x02\x01\0\0\0\x01\0\0\0\0\0\x01\xC2\x18\xFB\xBA\
    \0\0\0\0\0\0\0\0\0\0\0\
    \x0A\x19\x72\x68";

/// The frame with the second event of site 2, which moves the rect to 1 1.
pub const SECOND: &[u8] = b"GDOF\x03\0\0\0\x07\x02\x01\0\0\0\x02\0\0\0\0\0\x02\x24\x95\x5B\xC1\
    \0\0\0\0\0\0\0\0\0\0\x01\
    \0\0\0\0\0\x02\x02\0\x02\x03\0\0\0\0\0\x01\x02\0\0\0\x01\0\0\0\x01\
    \x2A\xA9\xC8\x0E";

/// What a link hands out: a frame, or a failure.
pub type Entry = Option<&'static [u8]>;

/// A link with these entries, on which these calls fail.
pub fn link_with(
    alloc: Global,
    entries: &[Entry],
    fails: &[Fail],
) -> Result<MemoryLink, AllocError> {
    let mut link = MemoryLink::new(alloc, ROOM, fails)?;
    for entry in entries {
        match entry {
            Some(frame) => link.add_datagram(*frame)?,
            None => link.add_failure()?,
        }
    }
    Ok(link)
}
