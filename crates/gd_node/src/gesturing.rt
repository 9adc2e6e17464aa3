//! Gestures: lines that are carried out together.

ghost use Rattle.std.specs.List.{flat_map};
ghost use Rattle.std.specs.Prelude.{◌≡◌, ◌++◌, Err, IfOk, OnErr, OnOk, replicate};
ghost use Rattle.gd_base.specs.declared.refusal.Refusal.TheVariants.{GestureFull};
ghost use Rattle.gd_lines.specs.Replies.{reply_text};
ghost use Rattle.gd_lines.specs.declared.reply.Reply.TheVariants as reply;
ghost use Rattle.gd_node.specs.Gesturing.{AreAsked, Judges, JudgesAll, for_gesture};
ghost use Rattle.gd_node.specs.Meeting.{IsMet};
ghost use Rattle.gd_node.specs.Owing.{Carries, node};
ghost use Rattle.gd_protocol.specs.Sites.{IsAsk};
ghost use Rattle.gd_reference.specs.NodeRun.{with_waiting};
ghost use Rattle.gd_reference.specs.SiteEffects.{asked_replies, gesture_replies};
ghost use Rattle.gd_reference.specs.SlowSite.{SlowSite};
ghost use Rattle.gd_site.specs.Sites.{StandsFor};
ghost use Rattle.gd_takeback.specs.Making.{making};

use crate::announcing::announce_all;
use crate::member::Member;
use crate::waiting::{Asked, Waiting};
use gd_answers::{Said, edit_refusal, line_refusal};
use gd_base::{LineFault, Refusal, Steps};
use gd_outside::{End, Journal, Link, Sink};
use gd_site::Site;
use gd_takeback::Gesture;
use gd_words::{Command, Reply};
use std::alloc::{AllocError, Global};
use std::sync::ledger::Ledger;

/// Has a line wait for the end of the gesture. `AllocError` where memory ran out.
pub(crate) fn wait(
    waiting: &mut Waiting,
    line: Result<Command, LineFault>,
) -> Result<(), AllocError>
    ensures { OnOk result (waiting.new ≡ with_waiting waiting.old line) }
{
    match line {
        Ok(Command::Edit(edit)) => waiting.add(Ok(edit)),
        Ok(Command::Blank | Command::Quit) => Ok(()),
        Ok(_) => waiting.add(Err(Refusal::InGesture)),
        Err(fault) => waiting.add(Err(line_refusal(fault))),
    }
}

/// Carries out the lines of a gesture, at its end: judges each edit where those before it have been made, adds all
/// events to the log behind one gate, prints what is said of each line, and how many there were, and tries a frame for
/// each other site for which one of them is in that frame.
///
/// `NoMemory` where memory ran out, `JournalFault` and `WriteFault` where a call on that object failed; no other end
/// comes.
pub(crate) fn carry_out<K: Sink, J: Journal, N: Link, L: Ledger>(
    member: &mut Member,
    waiting: &Waiting,
    output: &mut K,
    journal: &mut J,
    link: &mut N,
    steps: &mut Steps<L>,
) -> Result<(), End>
    requires met { IsMet member.old (J.seen journal.old) }
    requires ranged { AreAsked waiting.now }
    ensures { Carries (for_gesture waiting.now) result
        (node member.old (K.seen output.old) (J.seen journal.old) (N.seen link.old) steps.old)
        (node member.new (K.seen output.new) (J.seen journal.new) (N.seen link.new) steps.new) }
{
    let mut said = Said::new(member.alloc);
    let gesture = judge(member.alloc, &mut member.site, waiting, &mut said, steps)?;
    let events = member.backs.keep(gesture)?;
    announce_all(member, events.as_slice(), &said, output, journal, link)
}

/// Judges the lines of a gesture: makes their events, and says of each line what came of it, and how many there were.
/// `NoMemory` where memory ran out; no other end comes.
fn judge<L: Ledger>(
    alloc: Global,
    site: &mut Site,
    waiting: &Waiting,
    said: &mut Said,
    steps: &mut Steps<L>,
) -> Result<Gesture, End>
    requires { AreAsked waiting.now }
    ensures judged { (slow : SlowSite) → StandsFor slow site.old → JudgesAll slow waiting.now
        (gesture_replies slow waiting.now) result site.new said.old said.new steps.old steps.new }
    ensures end { OnErr result (result ≡ Err End.NoMemory) }
{
    let over = waiting.over();
    let gesture = make_all(alloc, site, waiting.first(), said, steps)?;
    refuse_others(said, over)?;
    let count = waiting.count();
    said.add(&Reply::End { count })?;
    Ok(gesture)
}

/// Makes the events of these lines, one after another, and says of each line what came of it. `NoMemory` where memory
/// ran out; no other end comes.
fn make_all<L: Ledger>(
    alloc: Global,
    site: &mut Site,
    asked: &[Asked],
    said: &mut Said,
    steps: &mut Steps<L>,
) -> Result<Gesture, End>
    requires { AreAsked asked.now }
    ensures judged { (slow : SlowSite) → StandsFor slow site.old → JudgesAll slow asked.now
        (asked_replies slow asked.now) result site.new said.old said.new steps.old steps.new }
    ensures end { OnErr result (result ≡ Err End.NoMemory) }
{
    let mut gesture = Gesture::new(alloc);
    for each in asked {
        let reply = make(&mut gesture, site, each, steps)?;
        said.add(&reply)?;
    }
    Ok(gesture)
}

/// Makes the event of a line, if it becomes one, and returns what is said of it. `NoMemory` where memory ran out, and
/// then the steps are as before; no other end comes.
fn make<L: Ledger>(
    gesture: &mut Gesture,
    site: &mut Site,
    asked: &Asked,
    steps: &mut Steps<L>,
) -> Result<Reply, End>
    requires { IsAsk asked.now }
    ensures judged { (slow : SlowSite) → StandsFor slow site.old
        → IfOk result (λ said. Judges slow asked.now said (making site.old gesture.old)
        (making site.new gesture.new) steps.old steps.new) }
    ensures end { OnErr result (result ≡ Err End.NoMemory) }
    ensures err_steps { OnErr result (steps.new ≡ steps.old) }
{
    let edit = match asked {
        Ok(edit) => edit,
        Err(why) => return Ok(Reply::Refused { why: *why }),
    };
    match gesture.edit(site, edit, steps) {
        Ok(id) => Ok(Reply::Done { id }),
        Err(fault) => {
            let why = edit_refusal(fault).ok_or(End::NoMemory)?;
            Ok(Reply::Refused { why })
        }
    }
}

/// Says of so many lines that they were too many. `AllocError` where memory ran out.
fn refuse_others(said: &mut Said, count: u32) -> Result<(), AllocError>
    ensures { OnOk result (said.new
        ≡ said.old ++ flat_map reply_text (replicate count (reply.Refused GestureFull))) }
{
    let mut left = count;
    'others: while left > 0 {
        left -= 1;
        said.add(&Reply::Refused {
            why: Refusal::GestureFull,
        })?;
    }
    Ok(())
}
