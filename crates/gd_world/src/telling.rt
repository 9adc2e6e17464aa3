//! What a site is asked for, and what it says.

ghost use Rattle.std.specs.Prelude.{◌≡◌, ◌++◌, [], ◌∷◌, Some, OnErr, IfOk, OnOk, IsTrue};
ghost use Rattle.gd_base.specs.Sites.{is_site};
ghost use Rattle.gd_base.specs.declared.refusal.Refusal.{Refusal as RefusalValue};
ghost use Rattle.gd_lines.specs.InRange.{IsCommand};
ghost use Rattle.gd_lines.specs.declared.command.Command.TheVariants as command;
ghost use Rattle.gd_lines.specs.declared.reply.Reply.TheVariants as reply;
ghost use Rattle.gd_reference.specs.NodeRun.{command_replies, note_said, parting_said, who_at};
ghost use Rattle.gd_reference.specs.SiteEffects.{done_replies};
ghost use Rattle.gd_reference.specs.SlowSite.{SlowSite};
ghost use Rattle.gd_site.specs.Sites.{StandsFor};
ghost use Rattle.gd_takeback.specs.Standing.{StandsWith};
ghost use Rattle.gd_world.specs.Telling.{Tells};

use crate::fault::WorldFault;
use crate::member::Member;
use crate::replies::Replies;
use gd_answers::{back_refusal, edit_refusal, noted_reply};
use gd_base::{Refusal, Steps};
use gd_events::Event;
use gd_lines::Command;
use gd_site::Site;
use gd_words::Reply;
use std::alloc::{AllocError, Global};
use std::sync::ledger::Ledger;

/// Asks a member for what a line says. `NoMemory` where memory ran out; there is no other fault.
pub(crate) fn tell<L: Ledger>(
    alloc: Global,
    member: &mut Member,
    command: &Command,
    steps: &mut Steps<L>,
) -> Result<Replies, WorldFault>
    requires ranged { IsCommand command.now }
    ensures { (slow : SlowSite) → StandsWith slow member.old.site member.old.backs
        → Tells slow command.now result steps.old member.new steps.new }
{
    match command {
        Command::Edit(edit) => match member.backs.edit(&mut member.site, edit, steps) {
            Ok(event) => only(alloc, Reply::Done { id: event.stamp() }),
            Err(fault) => refused(alloc, edit_refusal(fault)),
        },
        Command::Turn(which) => match member.backs.turn(&mut member.site, *which, steps) {
            Ok(events) => done(alloc, events.as_slice()),
            Err(fault) => refused(alloc, back_refusal(fault)),
        },
        Command::Name(name) => only(alloc, noted_reply(member.site.set_name(name.copy()))),
        Command::Focus(focus) => only(alloc, noted_reply(member.site.set_focus(*focus))),
        Command::Show => show(alloc, &member.site),
        Command::Status => {
            let status = member.site.status();
            only(alloc, Reply::Status { status })
        }
        Command::Who => who(alloc, &member.site),
        Command::Blank | Command::Begin | Command::End | Command::Poll | Command::Quit => {
            Ok(Replies::new(alloc))
        }
    }
}

/// That these events were done, and how many there are.
fn done(alloc: Global, events: &[Event]) -> Result<Replies, WorldFault>
    ensures ok { IfOk result (λ replies. replies ≡ done_replies events.now) }
    ensures err { OnErr result (result ≡ Err WorldFault.NoMemory) }
{
    let mut replies = Replies::new(alloc);
    for event in events {
        replies.push(Reply::Done { id: event.stamp() })?;
    }
    replies.push(Reply::End {
        count: events.len() as u64,
    })?;
    Ok(replies)
}

/// One reply.
pub(crate) fn only(alloc: Global, reply: Reply) -> Result<Replies, WorldFault>
    ensures ok { IfOk result (λ replies. replies ≡ reply ∷ []) }
    ensures err { OnErr result (result ≡ Err WorldFault.NoMemory) }
{
    let mut replies = Replies::new(alloc);
    replies.push(reply)?;
    Ok(replies)
}

/// Why nothing was done. `NoMemory` where there is no reason, since memory had run out.
fn refused(alloc: Global, why: Option<Refusal>) -> Result<Replies, WorldFault>
    ensures ok { IfOk result (λ replies. (reason : RefusalValue)
        × (why ≡ Some reason) × (replies ≡ reply.Refused reason ∷ [])) }
    ensures err { OnErr result (result ≡ Err WorldFault.NoMemory) }
{
    let why = why.ok_or(WorldFault::NoMemory)?;
    only(alloc, Reply::Refused { why })
}

/// What a site shows: each object in printed order, and how many there are.
fn show(alloc: Global, site: &Site) -> Result<Replies, WorldFault>
    ensures ok { (slow : SlowSite) → StandsFor slow site.now
        → IfOk result (λ replies. replies ≡ command_replies slow command.Show) }
    ensures err { OnErr result (result ≡ Err WorldFault.NoMemory) }
{
    let picture = site.picture()?;
    let items = picture.as_slice();
    let mut replies = Replies::new(alloc);
    for item in items {
        let shared = item.share()?;
        replies.push(Reply::Item { item: shared })?;
    }
    replies.push(Reply::End {
        count: items.len() as u64,
    })?;
    Ok(replies)
}

/// Of each site its note, where it has made one, and at which count this one has parted from it, if it has; and how
/// many replies these are.
fn who(alloc: Global, site: &Site) -> Result<Replies, WorldFault>
    ensures ok { (slow : SlowSite) → StandsFor slow site.now
        → IfOk result (λ replies. replies ≡ command_replies slow command.Who) }
    ensures err { OnErr result (result ≡ Err WorldFault.NoMemory) }
{
    let mut replies = Replies::new(alloc);
    for before in 0..site.sites() {
        push_site(site, before + 1, &mut replies)?;
    }
    let count = replies.as_slice().len() as u64;
    replies.push(Reply::End { count })?;
    Ok(replies)
}

/// Puts that of one site last. `AllocError` where memory ran out.
fn push_site(site: &Site, number: u8, replies: &mut Replies) -> Result<(), AllocError>
    requires { IsTrue (is_site site.now.peers.sites number) }
    ensures { (slow : SlowSite) → StandsFor slow site.now
        → OnOk result (replies.new ≡ replies.old ++ who_at slow number) }
{
    push_note(site, number, replies)?;
    push_parting(site, number, replies)
}

/// Puts the note of a site last, if it has made one. `AllocError` where memory ran out.
fn push_note(site: &Site, number: u8, replies: &mut Replies) -> Result<(), AllocError>
    requires { IsTrue (is_site site.now.peers.sites number) }
    ensures { (slow : SlowSite) → StandsFor slow site.now
        → OnOk result (replies.new ≡ replies.old ++ note_said slow number) }
{
    let note = site.note(number);
    if note.number == 0 {
        return Ok(());
    }
    replies.push(Reply::Who { site: number, note })
}

/// Puts last that the site has parted from that one, if it has. `AllocError` where memory ran out.
fn push_parting(site: &Site, number: u8, replies: &mut Replies) -> Result<(), AllocError>
    requires { IsTrue (is_site site.now.peers.sites number) }
    ensures { (slow : SlowSite) → StandsFor slow site.now
        → OnOk result (replies.new ≡ replies.old ++ parting_said slow number) }
{
    match site.parted(number) {
        None => Ok(()),
        Some(count) => replies.push(Reply::Parted {
            site: number,
            count,
        }),
    }
}
