//! Members that begin, or go on from a journal.
ghost use Rattle.std.specs.Prelude.{◌≡◌, ◌<◌};
ghost use Rattle.gd_embed.specs.Beginning.{BoxedIs, IsTold, NewIs, OpenIs};

use crate::answers::Fault;
use crate::buffers::{copy_of, fill};
use crate::held::Held;
use gd_base::{LogWhy, SITES, Steps};
use gd_member::Member;
use gd_rejoin::ResumeFault;
use gd_words::{Reply, ReplyText};
use std::alloc::Global;
use std::sync::ledger::{Blank, Ledger};

/// A new member. `NoSite` where there is no such site, and `NoMemory` where memory ran out.
pub fn begun(alloc: Global, me: u8, sites: u8, session: u32) -> Result<Box<Held>, Fault>
    ensures { NewIs me sites session result }
{
    if me < 1 || sites < me || SITES < sites {
        return Err(Fault::NoSite);
    }
    match Member::new(alloc, me, sites, session) {
        Ok(member) => boxed(alloc, member),
        Err(_) => Err(Fault::NoMemory),
    }
}

/// The member that goes on from a journal's bytes, or why there is none: the line of `BadJournal` is written to `why`,
/// where that has room.
pub fn opened<L: Ledger>(
    alloc: Global,
    journal: &[u8],
    me: u8,
    sites: u8,
    session: u32,
    why: &mut [u8],
    needed: &mut u64,
    blank: Blank,
) -> Result<Box<Held>, Fault>
    requires name { blank.name ≡ L.name }
    requires parts { blank.parts ≡ L.parts }
    requires some { 0 < blank.parts }
    ensures { OpenIs me sites session journal.now
        (record { old = why.old; new = why.new; needed = needed.new }) result }
{
    if me < 1 || sites < me || SITES < sites {
        return Err(Fault::NoSite);
    }
    let Ok(bytes) = copy_of(alloc, journal) else {
        return Err(Fault::NoMemory);
    };
    let mut steps = Steps::<L>::new(blank);
    match Member::open(alloc, bytes, me, sites, session, &mut steps) {
        Ok(member) => boxed(alloc, member),
        Err(ResumeFault::Bad { at, why: fault }) => {
            tell(at, fault, why, needed);
            Err(Fault::BadJournal)
        }
        Err(ResumeFault::Other { found: _ }) => Err(Fault::OtherJournal),
        Err(_) => Err(Fault::NoMemory),
    }
}

/// The line of a fault, to a buffer, if that has room.
fn tell(at: u64, why: LogWhy, out: &mut [u8], needed: &mut u64)
    ensures { IsTold at why (record { old = out.old; new = out.new; needed = needed.new }) }
{
    let mut line = ReplyText::new();
    line.put(&Reply::BadLog { at, why });
    let _ = fill(line.as_slice(), out, needed);
}

/// The member in a box. `NoMemory` where memory ran out.
fn boxed(alloc: Global, member: Member) -> Result<Box<Held>, Fault>
    ensures { BoxedIs member result }
{
    match Box::new(alloc, Held::new(alloc, member)) {
        Ok(held) => Ok(held),
        Err(_) => Err(Fault::NoMemory),
    }
}
