//! What a site says of a frame that it is handed.

ghost use Rattle.std.specs.Prelude.{◌≡◌, ◌++◌, IfOk, OnErr, OnOk};
ghost use Rattle.gd_answers.specs.Arriving.{arrived_reply, replies_of, reply_list};
ghost use Rattle.gd_reference.specs.SlowSite.{SlowSite};
ghost use Rattle.gd_takeback.specs.Standing.{StandsWith};
ghost use Rattle.gd_world.specs.Hearing.{Hears};

use crate::fault::WorldFault;
use crate::member::Member;
use crate::replies::Replies;
use crate::telling::only;
use gd_answers::{Arrived, Came, take_frame};
use gd_base::Steps;
use gd_events::Event;
use gd_wire::Frame;
use gd_words::Reply;
use std::alloc::{AllocError, Global};
use std::sync::ledger::Ledger;

/// Hands a frame to a member, and returns what it says. `NoMemory` where memory ran out; there is no other fault.
pub(crate) fn hear<L: Ledger>(
    alloc: Global,
    member: &mut Member,
    frame: &Frame,
    steps: &mut Steps<L>,
) -> Result<Replies, WorldFault>
    requires { (slow : SlowSite) × StandsWith slow member.old.site member.old.backs }
    ensures { (slow : SlowSite) → StandsWith slow member.old.site member.old.backs
        → Hears slow frame.now result steps.old member.new steps.new }
{
    let came = take_frame(alloc, &mut member.site, frame, steps)?;
    match came {
        Came::Taken { heard } => echoes(alloc, frame.events(), heard.as_slice()),
        Came::Refused { fault } => only(alloc, Reply::NotTaken { fault }),
        Came::Parted { count } => {
            let head = frame.head();
            let reply = Reply::Parted {
                site: head.from,
                count,
            };
            only(alloc, reply)
        }
        Came::Passed => Ok(Replies::new(alloc)),
    }
}

/// What is said of these events, in their order.
fn echoes(alloc: Global, events: &[Event], heard: &[Arrived]) -> Result<Replies, WorldFault>
    ensures ok { IfOk result (λ replies. replies ≡ replies_of events.now heard.now) }
    ensures err { OnErr result (result ≡ Err WorldFault.NoMemory) }
{
    let mut replies = Replies::new(alloc);
    for (event, arrived) in events.iter().zip(heard) {
        push_echo(alloc, &mut replies, event, *arrived)?;
    }
    Ok(replies)
}

/// Puts last what is said of an event, if anything is. `AllocError` where memory ran out.
fn push_echo(
    alloc: Global,
    replies: &mut Replies,
    event: &Event,
    arrived: Arrived,
) -> Result<(), AllocError>
    ensures { OnOk result
        (replies.new ≡ replies.old ++ reply_list (arrived_reply event.now arrived)) }
{
    match arrived.reply(alloc, event)? {
        Some(reply) => replies.push(reply),
        None => Ok(()),
    }
}
