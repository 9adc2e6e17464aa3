//! Standard input and output over readers and writers of these tests' own, through the whole run.

use crate::over::{TIE, TIE_TEXT, ran, words_of};
use gd_outside::{Status, SureSink, SureSource};
use gd_real::{StandardInput, StandardOutput};
use std::alloc::{AllocError, Global};
use std::io::{Error, ErrorKind, Read, Result as IoResult, Write};
use std::test::Fail;

/// More than the tie prints.
const ROOM: usize = 200;

/// Gives the tie's log one byte at a time, up to the read of that number, counted from 1, which fails.
#[derive(Drop)]
struct Trickle {
    place: usize,
    failing: usize,
}

impl Read for Trickle {
    fn read(&mut self, buf: &mut [u8]) -> IoResult<usize> {
        if self.place.saturating_add(1) == self.failing {
            return Err(Error::from(ErrorKind::Other));
        }
        let (Some(first), Some(byte)) = (buf.first_mut(), TIE.get(self.place)) else {
            return Ok(0);
        };
        *first = *byte;
        self.place = self.place.saturating_add(1);
        Ok(1)
    }
}

/// Takes one byte at a time. From the write of that number on, counted from 1, it takes none, and a flush behind that
/// many bytes fails.
#[derive(Drop)]
struct Sips {
    taken: Vec<u8>,
    most: usize,
    is_full: bool,
}

impl Write for Sips {
    fn write(&mut self, buf: &[u8]) -> IoResult<usize> {
        let Some(first) = buf.first() else {
            return Ok(0);
        };
        if self.taken.len() >= self.most {
            return Ok(0);
        }
        self.taken.push(*first)?;
        Ok(1)
    }

    fn flush(&mut self) -> IoResult<()> {
        if self.is_full && self.taken.len() >= self.most {
            return Err(Error::from(ErrorKind::StorageFull));
        }
        Ok(())
    }
}

/// Replays the tie's log as it trickles in.
fn trickled(alloc: Global, failing: usize) -> Result<(Status, SureSink), AllocError> {
    let words = words_of(alloc, &["replay"])?;
    let mut input = StandardInput::new(Trickle { place: 0, failing });
    let mut output = SureSink::new(alloc, ROOM)?;
    let status = ran(alloc, &words, &mut input, &mut output)?;
    Ok((status, output))
}

/// Replays the tie's log, of whose text so many bytes are taken at most.
fn sipped(alloc: Global, most: usize, is_full: bool) -> Result<(Status, Vec<u8>), AllocError> {
    let words = words_of(alloc, &["replay"])?;
    let mut input = SureSource::new(alloc, &TIE)?;
    let mut sips = Sips {
        taken: Vec::new(alloc),
        most,
        is_full,
    };
    let status = ran(
        alloc,
        &words,
        &mut input,
        &mut StandardOutput::new(&mut sips),
    )?;
    Ok((status, sips.taken))
}

#[test]
fn bytes_that_come_one_by_one_are_all_read(rt: HostRuntime) -> Result<(), Fail> {
    let (status, output) = trickled(rt.alloc(), 0)?;
    assert_eq!(rt; status, Status::Done);
    assert_eq!(rt; output.bytes(), TIE_TEXT.as_bytes());
    Ok(())
}

#[test]
fn a_reader_that_fails_is_no_end_of_input(rt: HostRuntime) -> Result<(), Fail> {
    for failing in [1, 12, 42, 71] {
        let (status, output) = trickled(rt.alloc(), failing)?;
        assert_eq!(rt; status, Status::ReadFault, "at {failing}");
        assert_eq!(rt; output.bytes().len(), 0, "at {failing}");
    }
    Ok(())
}

#[test]
fn a_writer_that_takes_one_byte_gets_them_all(rt: HostRuntime) -> Result<(), Fail> {
    let (status, taken) = sipped(rt.alloc(), ROOM, true)?;
    assert_eq!(rt; status, Status::Done);
    assert_eq!(rt; taken.as_slice(), TIE_TEXT.as_bytes());
    Ok(())
}

#[test]
fn a_writer_that_fails_is_no_success(rt: HostRuntime) -> Result<(), Fail> {
    for most in [0, 1, 67, 136] {
        for is_full in [false, true] {
            let (status, taken) = sipped(rt.alloc(), most, is_full)?;
            assert_eq!(rt; status, Status::WriteFault, "at {most}");
            assert_eq!(rt; taken.as_slice(), &TIE_TEXT.as_bytes()[..most], "at {most}");
        }
    }
    Ok(())
}
