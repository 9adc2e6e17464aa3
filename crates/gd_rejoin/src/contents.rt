//! The contents of a journal, as bytes in memory.

ghost use Rattle.std.specs.Prelude.{◌≡◌, ◌≤◌, Err, length, take, IfErr, IfOk, IsSome};
ghost use Rattle.gd_outside.specs.Called.{ContentsStay, JournalCalled};
ghost use Rattle.gd_outside.specs.Told.{told, Stays};
ghost use Rattle.gd_rejoin.specs.Faults.{IsReadFault};

use crate::fault::ResumeFault;
use gd_outside::Journal;
use std::alloc::Global;

/// How many bytes are asked of a journal at most in one read.
const SIZE: usize = 16_384;

/// The front of the contents: all of them where they have at most `most` bytes, and else that many of them or more. The
/// contents stay.
///
/// `Journal` where a call on the journal failed, and `NoMemory` where memory ran out.
pub fn front_of<J: Journal>(
    alloc: Global,
    journal: &mut J,
    most: u64,
) -> Result<Vec<u8>, ResumeFault>
    ensures front { IfOk result (λ front. IsSome (J.seen journal.new).contents
        → front.items ≡ take (length front.items) (told (J.seen journal.new).contents)) }
    ensures whole { IfOk result (λ front. IsSome (J.seen journal.new).contents
        → length (told (J.seen journal.new).contents) ≤ most
        → front.items ≡ told (J.seen journal.new).contents) }
    ensures fault { IfErr result IsReadFault }
    ensures stay { ContentsStay (J.seen journal.old) (J.seen journal.new) }
    ensures name { Stays (J.seen journal.old).name (J.seen journal.new).name }
    ensures called { JournalCalled (J.seen journal.old) (J.seen journal.new)
        (result ≡ Err ResumeFault.Journal) }
{
    let mut front = Vec::new(alloc);
    let mut buffer = [0; SIZE];
    'reads: while (front.len() as u64) < most {
        let count = journal.read_at(front.len() as u64, &mut buffer)?;
        if count == 0 {
            break;
        }
        front.extend_from_slice(&buffer[..count])?;
    }
    Ok(front)
}
