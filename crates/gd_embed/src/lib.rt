//! Members of sessions for programs in C: each is an opaque handle, which one call at a time is given.
#![tactic(auto)]

ghost use Rattle.std.specs.Prelude.{◌≡◌, Err, MatchOption, None, pos};
ghost use Rattle.gd_embed.specs.Beginning.{NewIs, OpenIs, Puts};
ghost use Rattle.gd_embed.specs.Calls.{Answers};
ghost use Rattle.gd_embed.specs.Codes.{coded};
ghost use Rattle.gd_embed.specs.Saying.{
  EventsIs,
  GestureIs,
  LineIs,
  NoteAnswerIs,
  TakeIs,
  TellsOf,
  json_of,
  snapshot_of,
  text_of,
};
ghost use Rattle.gd_embed.specs.declared.answers.Fault.TheVariants.{Empty};
ghost use Rattle.gd_embed.specs.Telling.{
  FrameAnswerIs,
  HeadIs,
  PartedIs,
  SaidIs,
  StandingIs,
  UnwrittenIs,
  WrittenIs,
};

mod answers;
mod beginning;
mod buffers;
mod handle;
mod held;
mod records;
mod slot;
mod told;

use answers::{Fault, code};
use beginning::{begun, opened};
pub use records::{Noted, Standing};
pub use slot::Slot;
use std::alloc::Global;
use std::marker::Brand;
use std::sync::ledger::Blank;

/// Puts a new member into an empty handle: site `me` of a session of `sites`. 0, or `Occupied`, `NoSite`, `NoMemory`,
/// and then the handle stays as it was.
#[unsafe(no_mangle)]
pub extern "C" fn gd_new(alloc: Global, member: &mut Slot, me: u8, sites: u8, session: u32) -> i64
    ensures { Puts (Unit {0}) (NewIs me sites session) member.old.handle.value result
        member.new.handle.value }
{
    if member.holds() {
        return code(Err(Fault::Occupied));
    }
    match begun(alloc, me, sites, session) {
        Ok(held) => {
            member.put(held);
            code(Ok(0))
        }
        Err(fault) => code(Err(fault)),
    }
}

/// Puts the member into an empty handle that goes on from a journal's bytes. 0, or `Occupied`, `NoSite`, `BadJournal`,
/// `OtherJournal`, `NoMemory`, and then the handle stays as it was. At `BadJournal` the first fault is written to
/// `why`, if that has room.
#[unsafe(no_mangle)]
pub extern "C" fn gd_open(
    alloc: Global,
    member: &mut Slot,
    journal: &[u8],
    me: u8,
    sites: u8,
    session: u32,
    why: &mut [u8],
    needed: &mut u64,
) -> i64
    ensures { Puts (why.new ≡ why.old)
        (OpenIs me sites session journal.now
        (record { old = why.old; new = why.new; needed = needed.new }))
        member.old.handle.value result member.new.handle.value }
{
    if member.holds() {
        return code(Err(Fault::Occupied));
    }
    match opened::<Brand>(
        alloc,
        journal,
        me,
        sites,
        session,
        why,
        needed,
        Blank::new(1),
    ) {
        Ok(held) => {
            member.put(held);
            code(Ok(0))
        }
        Err(fault) => code(Err(fault)),
    }
}

/// Frees the member, and leaves the handle empty. 0, or `Empty`.
#[unsafe(no_mangle)]
pub extern "C" fn gd_free(alloc: Global, member: &mut Slot) -> i64
    ensures empty { member.new.handle.value ≡ None }
    ensures answer { MatchOption member.old.handle.value (result ≡ coded (Err Empty))
        (λ _. result ≡ pos 0) }
{
    match member.take(alloc) {
        Some(_) => 0,
        None => code(Err(Fault::Empty)),
    }
}

/// Carries out a typed line. The bytes of its replies, or `Empty`, `Spent`, `Refused`, `NotHere`, `NoMemory`.
#[unsafe(no_mangle)]
pub extern "C" fn gd_line(alloc: Global, member: &mut Slot, line: &[u8]) -> i64
    ensures { Answers (Unit {0}) (LineIs line.now) member.old.handle.value result
        member.new.handle.value }
{
    let mut held = match member.lend(alloc) {
        Ok(held) => held,
        Err(fault) => return code(Err(fault)),
    };
    let answer = held.line::<Brand>(alloc, line, Blank::new(1));
    member.put(held);
    code(answer)
}

/// Carries out lines as one gesture. The bytes of the replies, or `Empty`, `Spent`, `NoMemory`.
#[unsafe(no_mangle)]
pub extern "C" fn gd_gesture(alloc: Global, member: &mut Slot, lines: &[u8]) -> i64
    ensures { Answers (Unit {0}) (GestureIs lines.now) member.old.handle.value result
        member.new.handle.value }
{
    let mut held = match member.lend(alloc) {
        Ok(held) => held,
        Err(fault) => return code(Err(fault)),
    };
    let answer = held.gesture::<Brand>(alloc, lines, Blank::new(1));
    member.put(held);
    code(answer)
}

/// Takes a datagram as it came. The bytes of what there is to say of it, or `Empty`, `Spent`, `Refused`, `NoMemory`.
#[unsafe(no_mangle)]
pub extern "C" fn gd_take(alloc: Global, member: &mut Slot, datagram: &[u8]) -> i64
    ensures { Answers (Unit {0}) (TakeIs datagram.now) member.old.handle.value result
        member.new.handle.value }
{
    let mut held = match member.lend(alloc) {
        Ok(held) => held,
        Err(fault) => return code(Err(fault)),
    };
    let answer = held.take::<Brand>(alloc, datagram, Blank::new(1));
    member.put(held);
    code(answer)
}

/// Writes a frame for site `to`, behind so many of the own events or those that it has acknowledged, and raises
/// `behind` to how many it has then. The frame's bytes, or `Empty`, `Spent`, `NoSite`, `Unwritten`, `Room`, and then
/// `behind` is as it was.
#[unsafe(no_mangle)]
pub extern "C" fn gd_frame(
    alloc: Global,
    member: &mut Slot,
    to: u8,
    behind: &mut u16,
    out: &mut [u8],
    needed: &mut u64,
) -> i64
    ensures { Answers ((out.new ≡ out.old) × (behind.new ≡ behind.old))
        (FrameAnswerIs to behind.old behind.new
        (record { old = out.old; new = out.new; needed = needed.new }))
        member.old.handle.value result member.new.handle.value }
{
    let held = match member.lend(alloc) {
        Ok(held) => held,
        Err(fault) => return code(Err(fault)),
    };
    let answer = held.frame(to, behind, out, needed);
    member.put(held);
    code(answer)
}

/// Writes what a journal of the member begins with. The bytes of that, or `Empty`, `Spent`, `Room`.
#[unsafe(no_mangle)]
pub extern "C" fn gd_journal_head(
    alloc: Global,
    member: &mut Slot,
    out: &mut [u8],
    needed: &mut u64,
) -> i64
    ensures { Answers (out.new ≡ out.old)
        (HeadIs (record { old = out.old; new = out.new; needed = needed.new }))
        member.old.handle.value result member.new.handle.value }
{
    let held = match member.lend(alloc) {
        Ok(held) => held,
        Err(fault) => return code(Err(fault)),
    };
    let answer = held.journal_head(out, needed);
    member.put(held);
    code(answer)
}

/// Writes the bytes that the journal lacks, and their place. Their number, or `Empty`, `Spent`, `Room`.
#[unsafe(no_mangle)]
pub extern "C" fn gd_unwritten(
    alloc: Global,
    member: &mut Slot,
    place: &mut u64,
    out: &mut [u8],
    needed: &mut u64,
) -> i64
    ensures { Answers ((out.new ≡ out.old) × (place.new ≡ place.old))
        (UnwrittenIs place.new (record { old = out.old; new = out.new; needed = needed.new }))
        member.old.handle.value result member.new.handle.value }
{
    let held = match member.lend(alloc) {
        Ok(held) => held,
        Err(fault) => return code(Err(fault)),
    };
    let answer = held.unwritten(place, out, needed);
    member.put(held);
    code(answer)
}

/// Tells the member that the journal has what is unwritten, of so many bytes. 0, or `Empty`, `Spent`, `NotThese`.
#[unsafe(no_mangle)]
pub extern "C" fn gd_written(alloc: Global, member: &mut Slot, count: u64) -> i64
    ensures { Answers (Unit {0}) (WrittenIs count) member.old.handle.value result
        member.new.handle.value }
{
    let mut held = match member.lend(alloc) {
        Ok(held) => held,
        Err(fault) => return code(Err(fault)),
    };
    let answer = held.written(count);
    member.put(held);
    code(answer)
}

/// Writes the text that was said last. Its bytes, or `Empty`, `Spent`, `Room`.
#[unsafe(no_mangle)]
pub extern "C" fn gd_said(alloc: Global, member: &mut Slot, out: &mut [u8], needed: &mut u64) -> i64
    ensures { Answers (out.new ≡ out.old)
        (SaidIs (record { old = out.old; new = out.new; needed = needed.new }))
        member.old.handle.value result member.new.handle.value }
{
    let held = match member.lend(alloc) {
        Ok(held) => held,
        Err(fault) => return code(Err(fault)),
    };
    let answer = held.told(out, needed);
    member.put(held);
    code(answer)
}

/// Has the member say its drawing as JSON. The bytes of that, or `Empty`, `Spent`, `NoMemory`.
#[unsafe(no_mangle)]
pub extern "C" fn gd_json(alloc: Global, member: &mut Slot) -> i64
    ensures { Answers (Unit {0}) (TellsOf json_of) member.old.handle.value result
        member.new.handle.value }
{
    let mut held = match member.lend(alloc) {
        Ok(held) => held,
        Err(fault) => return code(Err(fault)),
    };
    let answer = held.json();
    member.put(held);
    code(answer)
}

/// Has the member say its drawing as lines. The bytes of that, or `Empty`, `Spent`, `NoMemory`.
#[unsafe(no_mangle)]
pub extern "C" fn gd_text(alloc: Global, member: &mut Slot) -> i64
    ensures { Answers (Unit {0}) (TellsOf text_of) member.old.handle.value result
        member.new.handle.value }
{
    let mut held = match member.lend(alloc) {
        Ok(held) => held,
        Err(fault) => return code(Err(fault)),
    };
    let answer = held.text();
    member.put(held);
    code(answer)
}

/// Has the member say its snapshot. The bytes of that, or `Empty`, `Spent`, `NoMemory`.
#[unsafe(no_mangle)]
pub extern "C" fn gd_snapshot(alloc: Global, member: &mut Slot) -> i64
    ensures { Answers (Unit {0}) (TellsOf snapshot_of) member.old.handle.value result
        member.new.handle.value }
{
    let mut held = match member.lend(alloc) {
        Ok(held) => held,
        Err(fault) => return code(Err(fault)),
    };
    let answer = held.snapshot::<Brand>(Blank::new(1));
    member.put(held);
    code(answer)
}

/// Has the member say the events of its journal's bytes as JSON. The bytes of that, or `Empty`, `Spent`, `BadJournal`,
/// whose line is said, `OtherJournal`, `NoMemory`.
#[unsafe(no_mangle)]
pub extern "C" fn gd_events(alloc: Global, member: &mut Slot, journal: &[u8]) -> i64
    ensures { Answers (Unit {0}) (EventsIs journal.now) member.old.handle.value result
        member.new.handle.value }
{
    let mut held = match member.lend(alloc) {
        Ok(held) => held,
        Err(fault) => return code(Err(fault)),
    };
    let answer = held.events(alloc, journal);
    member.put(held);
    code(answer)
}

/// Hands out where the member stands. 0, or `Empty`, `Spent`.
#[unsafe(no_mangle)]
pub extern "C" fn gd_status(alloc: Global, member: &mut Slot, out: &mut Standing) -> i64
    ensures { Answers (out.new ≡ out.old) (StandingIs out.new) member.old.handle.value result
        member.new.handle.value }
{
    let held = match member.lend(alloc) {
        Ok(held) => held,
        Err(fault) => return code(Err(fault)),
    };
    let answer = held.standing(out);
    member.put(held);
    code(answer)
}

/// Hands out the newest note of a site, and has the member say its name. The bytes of the name, or `Empty`, `Spent`,
/// `NoSite`, `NoNote`, `NoMemory`.
#[unsafe(no_mangle)]
pub extern "C" fn gd_note(alloc: Global, member: &mut Slot, site: u8, out: &mut Noted) -> i64
    ensures { Answers (out.new ≡ out.old) (NoteAnswerIs site out.old out.new)
        member.old.handle.value result member.new.handle.value }
{
    let mut held = match member.lend(alloc) {
        Ok(held) => held,
        Err(fault) => return code(Err(fault)),
    };
    let answer = held.note(alloc, site, out);
    member.put(held);
    code(answer)
}

/// At which count of a site's events the member has parted from it, or `Empty`, `Spent`, `NoSite`, `NotParted`.
#[unsafe(no_mangle)]
pub extern "C" fn gd_parted(alloc: Global, member: &mut Slot, site: u8) -> i64
    ensures { Answers (Unit {0}) (PartedIs site) member.old.handle.value result
        member.new.handle.value }
{
    let held = match member.lend(alloc) {
        Ok(held) => held,
        Err(fault) => return code(Err(fault)),
    };
    let answer = held.parted(site);
    member.put(held);
    code(answer)
}
