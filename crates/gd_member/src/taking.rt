//! Datagrams of other sites.

ghost use Rattle.std.specs.List.{flat_map};
ghost use Rattle.std.specs.Prelude.{◌≡◌, ◌+◌, ◌∷◌, ◌++◌, [], true, List, None, IfOk, OnErr, OnOk};
ghost use Rattle.std.specs.Prelude.{if◌then◌else◌};
ghost use Rattle.gd_answers.specs.Arriving.{replies_of, taken_of};
ghost use Rattle.gd_answers.specs.Paying.{PaysFront, frame_works};
ghost use Rattle.gd_effects.specs.Effects.{cost};
ghost use Rattle.gd_events.specs.Events.{Event as EventValue};
ghost use Rattle.gd_lines.specs.Replies.{reply_text};
ghost use Rattle.gd_lines.specs.declared.reply.Reply.TheVariants as reply;
ghost use Rattle.gd_member.specs.Taking.{TakesIn, datagram_replies, datagram_works};
ghost use Rattle.gd_member.specs.Unwritten.{AreUnwritten};
ghost use Rattle.gd_reference.specs.NodeRun.{after_datagram, is_too_long, sender, sender_by};
ghost use Rattle.gd_reference.specs.Offers as offers;
ghost use Rattle.gd_reference.specs.Offers.{verdict};
ghost use Rattle.gd_reference.specs.SiteEffects.{frame_replies};
ghost use Rattle.gd_reference.specs.SlowSite.{SlowSite};
ghost use Rattle.gd_site.specs.Sites.{StandsFor};

use crate::member::Member;
use crate::unwritten::Unwritten;
use gd_answers::{Arrived, Came, Said, take_frame};
use gd_base::{FrameFault, Steps};
use gd_events::Event;
use gd_site::Site;
use gd_wire::{Frame, FrameError, read_frame};
use gd_words::Reply;
use std::alloc::{AllocError, Global};
use std::sync::ledger::Ledger;

/// A frame has no more bytes.
const LONGEST_DATAGRAM: usize = 8_192;

impl Member {
    ghost use Rattle.gd_member.specs.Members.{IsLive};
    ghost use Rattle.gd_member.specs.Standing.{Stands};

    /// Takes a datagram: a frame, or none. What comes of its events is said behind what was said, and so is why it
    /// isn't taken. The events that are taken are unwritten then, and their arrivals took their steps. Returns whose
    /// frame it was, if it was taken.
    ///
    /// `AllocError` where memory ran out. Then the member is as before, or it is spent, and a part of the steps was
    /// taken.
    pub fn take<L: Ledger>(
        &mut self,
        datagram: &[u8],
        said: &mut Said,
        steps: &mut Steps<L>,
    ) -> Result<Option<u8>, AllocError>
        requires { IsLive self.old }
        ensures sender { (slow : SlowSite) (written : List EventValue)
            → Stands slow written self.old
            → IfOk result (λ from. from ≡ sender slow datagram.now) }
        ensures stands { (slow : SlowSite) (written : List EventValue)
            → Stands slow written self.old
            → OnOk result (Stands (after_datagram slow datagram.now) written self.new) }
        ensures said { (slow : SlowSite) (written : List EventValue)
            → Stands slow written self.old
            → OnOk result (said.new
            ≡ said.old ++ flat_map reply_text (datagram_replies slow datagram.now)) }
        ensures err_stands { (slow : SlowSite) (written : List EventValue)
            → Stands slow written self.old
            → OnErr result (IsLive self.new → Stands slow written self.new) }
        ensures steps { (slow : SlowSite) (written : List EventValue)
            → Stands slow written self.old
            → OnOk result (steps.new ≡ steps.old + cost (datagram_works slow datagram.now)) }
        ensures err_steps { (slow : SlowSite) (written : List EventValue)
            → Stands slow written self.old
            → OnErr result (PaysFront steps.old (datagram_works slow datagram.now) steps.new) }
    {
        if is_too_long(datagram) {
            return say_alone(&Reply::LongFrame, said);
        }
        match read_frame(self.alloc, datagram) {
            Ok(frame) => self.take_read(&frame, said, steps),
            Err(FrameError::Memory) => Err(AllocError {}),
            Err(FrameError::Fault(fault)) => say_alone(&Reply::BadFrame { fault }, said),
        }
    }

    /// The same of a frame that was read. `AllocError` where memory ran out, and then the member is spent.
    fn take_read<L: Ledger>(
        &mut self,
        frame: &Frame,
        said: &mut Said,
        steps: &mut Steps<L>,
    ) -> Result<Option<u8>, AllocError>
        requires { IsLive self.old }
        ensures sender { (slow : SlowSite) (written : List EventValue)
            → Stands slow written self.old
            → IfOk result (λ from. from ≡ sender_by (verdict slow frame.now) frame.now.head.from) }
        ensures stands { (slow : SlowSite) (written : List EventValue)
            → Stands slow written self.old
            → OnOk result (Stands (offers.take_frame slow frame.now) written self.new) }
        ensures said { (slow : SlowSite) (written : List EventValue)
            → Stands slow written self.old
            → OnOk result (said.new
            ≡ said.old ++ flat_map reply_text (frame_replies slow frame.now)) }
        ensures err { OnErr result (self.new.spent ≡ true) }
        ensures steps { (slow : SlowSite) (written : List EventValue)
            → Stands slow written self.old
            → OnOk result (steps.new ≡ steps.old + cost (frame_works slow frame.now)) }
        ensures err_steps { (slow : SlowSite) (written : List EventValue)
            → Stands slow written self.old
            → OnErr result (PaysFront steps.old (frame_works slow frame.now) steps.new) }
    {
        match take_into(
            self.alloc,
            &mut self.site,
            &mut self.unwritten,
            frame,
            said,
            steps,
        ) {
            Ok(from) => Ok(from),
            Err(why) => {
                self.spent = true;
                Err(why)
            }
        }
    }
}

/// Whether a datagram has too many bytes for a frame.
fn is_too_long(datagram: &[u8]) -> bool
    ensures { result ≡ is_too_long datagram.now }
{
    datagram.len() > LONGEST_DATAGRAM
}

/// Says this of a datagram that is taken from no site. `AllocError` where memory ran out.
fn say_alone(reply: &Reply, said: &mut Said) -> Result<Option<u8>, AllocError>
    ensures none { IfOk result (λ from. from ≡ None) }
    ensures said { OnOk result (said.new ≡ said.old ++ reply_text reply.now) }
{
    said.add(reply)?;
    Ok(None)
}

/// Has the site take a frame, puts what is taken of it with the unwritten events, and says what came of each event. Of
/// a frame that isn't taken it says why, or that the site has parted from its sender; nothing where that was said.
/// Returns the sender, if the frame was taken. `AllocError` where memory ran out.
fn take_into<L: Ledger>(
    alloc: Global,
    site: &mut Site,
    unwritten: &mut Unwritten,
    frame: &Frame,
    said: &mut Said,
    steps: &mut Steps<L>,
) -> Result<Option<u8>, AllocError>
    requires { (slow : SlowSite) × StandsFor slow site.old }
    ensures sender { (slow : SlowSite) → StandsFor slow site.old
        → IfOk result (λ from. from ≡ sender_by (verdict slow frame.now) frame.now.head.from) }
    ensures stands { (slow : SlowSite) → StandsFor slow site.old
        → OnOk result (StandsFor (offers.take_frame slow frame.now) site.new) }
    ensures unwritten { (slow : SlowSite) → StandsFor slow site.old
        → OnOk result (TakesIn slow frame.now unwritten.old unwritten.new) }
    ensures said { (slow : SlowSite) → StandsFor slow site.old
        → OnOk result (said.new ≡ said.old ++ flat_map reply_text (frame_replies slow frame.now)) }
    ensures steps { (slow : SlowSite) → StandsFor slow site.old
        → OnOk result (steps.new ≡ steps.old + cost (frame_works slow frame.now)) }
    ensures err_steps { (slow : SlowSite) → StandsFor slow site.old
        → OnErr result (PaysFront steps.old (frame_works slow frame.now) steps.new) }
{
    let from = frame.head().from;
    match take_frame(alloc, site, frame, steps)? {
        Came::Taken { heard } => {
            hear_all(unwritten, said, frame.events(), heard.as_slice())?;
            Ok(Some(from))
        }
        Came::Refused { fault } => {
            say_refused(fault, said)?;
            Ok(None)
        }
        Came::Parted { count } => {
            say_parted(from, count, said)?;
            Ok(None)
        }
        Came::Passed => Ok(None),
    }
}

/// Says why a frame isn't taken. `AllocError` where memory ran out.
fn say_refused(fault: FrameFault, said: &mut Said) -> Result<(), AllocError>
    ensures { OnOk result (said.new ≡ said.old ++ reply_text (reply.NotTaken fault)) }
{
    said.add(&Reply::NotTaken { fault })
}

/// Says that the site has parted from that one. `AllocError` where memory ran out.
fn say_parted(site: u8, count: u16, said: &mut Said) -> Result<(), AllocError>
    ensures { OnOk result (said.new ≡ said.old ++ reply_text (reply.Parted site count)) }
{
    said.add(&Reply::Parted { site, count })
}

/// Puts the events that were taken last, and says what came of all of them. `AllocError` where memory ran out.
fn hear_all(
    unwritten: &mut Unwritten,
    said: &mut Said,
    events: &[Event],
    heard: &[Arrived],
) -> Result<(), AllocError>
    ensures unwritten { OnOk result ((written others : List EventValue)
        → AreUnwritten written others unwritten.old
        → AreUnwritten written (others ++ taken_of events.now heard.now) unwritten.new) }
    ensures said { OnOk result (said.new
        ≡ said.old ++ flat_map reply_text (replies_of events.now heard.now)) }
{
    'events: for (event, arrived) in events.iter().zip(heard) {
        add_taken(arrived.is_taken(), event, unwritten)?;
        said.add_arrived(*arrived, event)?;
    }
    Ok(())
}

/// Puts an event last, if it was taken. `AllocError` where memory ran out.
fn add_taken(taken: bool, event: &Event, unwritten: &mut Unwritten) -> Result<(), AllocError>
    ensures { OnOk result ((written others : List EventValue)
        → AreUnwritten written others unwritten.old
        → AreUnwritten written (others ++ (if taken then event.now ∷ [] else [])) unwritten.new) }
{
    if !taken {
        return Ok(());
    }
    unwritten.reserve()?;
    unwritten.add(event);
    Ok(())
}
