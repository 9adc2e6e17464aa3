//! The log that a journal has.

ghost use Rattle.std.specs.Prelude.{◌≡◌, ◌++◌, [], List, ℕ, Err, IfErr, IfOk, IfSome, IsSome, IsTrue};
ghost use Rattle.gd_outside.specs.Called.{ContentsStay, JournalCalled};
ghost use Rattle.gd_outside.specs.Told.{told, Stays};
ghost use Rattle.gd_reference.specs.Rejoin.{found};
ghost use Rattle.gd_rejoin.specs.Faults.{IsFound, IsFoundOrFailed, is_short};
ghost use Rattle.gd_rejoin.specs.LogFor.{IsLogFor};

use crate::contents::front_of;
use crate::fault::ResumeFault;
use gd_base::LogWhy;
use gd_logs::{WholeLog, read_whole_of};
use gd_outside::{Journal, SureSource};
use gd_wire::{Drawings, LogHeader};
use std::alloc::Global;

/// How many bytes of a journal are read at first. Most logs are no longer.
const FRONT: u64 = 1_048_576;

/// How many times as many are read next, where the log isn't ended in these.
const GROWTH: u64 = 8;

/// The log that the contents of the journal are, where it is of that header and its closing gate is there. It reads a
/// front of the contents, and a longer one only where the log isn't ended in it. The contents stay.
///
/// Else the fault that is found in them; `Journal` where a call on the journal failed, and `NoMemory` where memory ran
/// out.
pub fn log_in<J: Journal>(
    alloc: Global,
    journal: &mut J,
    header: &LogHeader,
) -> Result<WholeLog, ResumeFault>
    ensures log { IfOk result (λ log. IsLogFor header.now log.events log.place log.chains
        (IsSome (J.seen journal.new).contents) (told (J.seen journal.new).contents)) }
    ensures fault { IfErr result (λ fault. IsSome (J.seen journal.new).contents
        → IsFoundOrFailed fault (found header.now (told (J.seen journal.new).contents))) }
    ensures stay { ContentsStay (J.seen journal.old) (J.seen journal.new) }
    ensures name { Stays (J.seen journal.old).name (J.seen journal.new).name }
    ensures called { JournalCalled (J.seen journal.old) (J.seen journal.new)
        (result ≡ Err ResumeFault.Journal) }
{
    let size = journal.len()?;
    let mut most = FRONT;
    'fronts: while most < size {
        if let Some(log) = log_within(alloc, journal, header, most)? {
            return Ok(log);
        }
        most = most.saturating_mul(GROWTH);
    }
    let whole = front_of(alloc, journal, size)?;
    log_for(alloc, whole, header)
}

/// The same, by the front of that many bytes. None where the log isn't ended in it.
fn log_within<J: Journal>(
    alloc: Global,
    journal: &mut J,
    header: &LogHeader,
    most: u64,
) -> Result<Option<WholeLog>, ResumeFault>
    ensures log { IfOk result
        (λ o. IfSome o (λ log. IsLogFor header.now log.events log.place log.chains
        (IsSome (J.seen journal.new).contents) (told (J.seen journal.new).contents))) }
    ensures fault { IfErr result (λ fault. IsSome (J.seen journal.new).contents
        → IsFoundOrFailed fault (found header.now (told (J.seen journal.new).contents))) }
    ensures stay { ContentsStay (J.seen journal.old) (J.seen journal.new) }
    ensures name { Stays (J.seen journal.old).name (J.seen journal.new).name }
    ensures called { JournalCalled (J.seen journal.old) (J.seen journal.new)
        (result ≡ Err ResumeFault.Journal) }
{
    let front = front_of(alloc, journal, most)?;
    let found = log_for(alloc, front, header);
    if is_cut(&found) {
        return Ok(None);
    }
    Ok(Some(found?))
}

/// Whether nothing was found but that bytes are missing.
fn is_cut(found: &Result<WholeLog, ResumeFault>) -> bool
    ensures { IfErr found.now (λ fault. result ≡ is_short fault) }
{
    match found {
        Ok(_) => false,
        Err(fault) => fault.is_short(),
    }
}

/// The log that begins with these bytes, whatever follows them, where it is of that header and its closing gate is
/// among them.
///
/// Else the fault that is found in them, or `NoMemory` where memory ran out. Where bytes are missing, more may follow.
pub fn log_for(alloc: Global, front: Vec<u8>, header: &LogHeader) -> Result<WholeLog, ResumeFault>
    ensures log { IfOk result (λ log. (more : List ℕ)
        → IsLogFor header.now log.events log.place log.chains (Unit {0}) (front.items ++ more)) }
    ensures fault { IfErr result (λ fault. (more : List ℕ) → (IsTrue (is_short fault) → more ≡ [])
        → IsFound fault (found header.now (front.items ++ more))) }
{
    let size = front.len() as u64;
    let mut source = SureSource::from_bytes(front);
    let log = read_whole_of::<Drawings, SureSource>(alloc, &mut source)?;
    if !log.closed {
        return Err(ResumeFault::Bad {
            at: size,
            why: LogWhy::Short,
        });
    }
    if log.header != *header {
        return Err(ResumeFault::Other { found: log.header });
    }
    Ok(log)
}
