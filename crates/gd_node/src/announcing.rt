//! Own events, once the site has made them.

ghost use Rattle.std.specs.List.{flat_map};
ghost use Rattle.std.specs.Prelude.{◌≡◌, ℕ, ◌∷◌, [], List, IfOk};
ghost use Rattle.gd_events.specs.Events.{Event as EventValue};
ghost use Rattle.gd_grammar.specs.Chains.{AreChains};
ghost use Rattle.gd_grammar.specs.Drawings.{drawings};
ghost use Rattle.gd_lines.specs.Replies.{reply_text};
ghost use Rattle.gd_lines.specs.declared.reply.Reply.{Reply as ReplyValue};
ghost use Rattle.gd_lines.specs.declared.reply.Reply.TheVariants as reply;
ghost use Rattle.gd_logs.specs.Written.{AreRecords};
ghost use Rattle.gd_node.specs.Editing.{Announces, IsAhead};
ghost use Rattle.gd_node.specs.Owing.{node};
ghost use Rattle.gd_reference.specs.SlowSite.{SlowSite};

use crate::journalling::{record_all_and_say, record_and_say};
use crate::member::Member;
use crate::sending::{send_frames_with, send_newest};
use gd_answers::Said;
use gd_events::Event;
use gd_logs::{LogWriter, Records};
use gd_outside::{End, Journal, Link, Sink};
use gd_wire::Drawings;
use gd_words::Reply;
use std::alloc::{AllocError, Global};

/// Adds an event that the member's site has made to the log, prints it as done, and tries a frame for each other site
/// for which it is in that frame. It takes no memory for that. `JournalFault` and `WriteFault` where a call on that
/// object failed; no other end comes.
pub(crate) fn announce<K: Sink, J: Journal, N: Link>(
    member: &mut Member,
    event: &Event,
    output: &mut K,
    journal: &mut J,
    link: &mut N,
) -> Result<(), End>
    requires { (slow : SlowSite) × IsAhead slow (event.now ∷ []) member.old (J.seen journal.old) }
    ensures { (steps : ℕ) → Announces (event.now ∷ []) (reply.Done event.now.stamp ∷ []) result
        (node member.old (K.seen output.old) (J.seen journal.old) (N.seen link.old) steps)
        (node member.new (K.seen output.new) (J.seen journal.new) (N.seen link.new) steps) }
{
    let reply = Reply::Done { id: event.stamp() };
    record_and_say(&mut member.log, event, &reply, output, journal)?;
    send_newest(&member.site, 1, link);
    Ok(())
}

/// Adds events that the member's site has made to the log, behind one gate, prints what is said of them, and tries a
/// frame for each other site for which one of them is in that frame. Where there are none it prints alone.
///
/// `NoMemory` where memory ran out, and then nothing was done. `JournalFault` and `WriteFault` where a call on that
/// object failed; no other end comes.
pub(crate) fn announce_all<K: Sink, J: Journal, N: Link>(
    member: &mut Member,
    events: &[Event],
    said: &Said,
    output: &mut K,
    journal: &mut J,
    link: &mut N,
) -> Result<(), End>
    requires { (slow : SlowSite) × IsAhead slow events.now member.old (J.seen journal.old) }
    ensures { (replies : List ReplyValue) → said.now ≡ flat_map reply_text replies
        → (steps : ℕ) → Announces events.now replies result
        (node member.old (K.seen output.old) (J.seen journal.old) (N.seen link.old) steps)
        (node member.new (K.seen output.new) (J.seen journal.new) (N.seen link.new) steps) }
{
    let records = records_of(member.alloc, &member.log, events)?;
    record_all_and_say(&mut member.log, records, said, output, journal)?;
    send_frames_with(&member.site, events, link);
    Ok(())
}

/// The records of these events, to be added to that log.
fn records_of(
    alloc: Global,
    log: &LogWriter,
    events: &[Event],
) -> Result<Records<Drawings>, AllocError>
    ensures { IfOk result (λ records. (seen : List EventValue)
        → AreChains drawings log.now.chains seen → AreRecords drawings seen events.now records) }
{
    let mut records = Records::new(alloc, log);
    for event in events {
        records.add(event)?;
    }
    Ok(records)
}
