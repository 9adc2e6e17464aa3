//! Lines that the member's user types.

ghost use Rattle.std.specs.List.{flat_map};
ghost use Rattle.std.specs.Prelude.{◌≡◌, ◌++◌, ℕ, Ok, Err, IfOk, List, OnErr, OnOk, Some, true};
ghost use Rattle.gd_base.specs.declared.refusal.Refusal.{Refusal as RefusalValue};
ghost use Rattle.gd_events.specs.Events.{Event as EventValue};
ghost use Rattle.gd_lines.specs.InRange.{IsEdit};
ghost use Rattle.gd_lines.specs.Lines.{read};
ghost use Rattle.gd_lines.specs.Replies.{reply_text};
ghost use Rattle.gd_lines.specs.declared.command.Command.TheVariants as command;
ghost use Rattle.gd_lines.specs.declared.reply.Reply.TheVariants as reply;
ghost use Rattle.gd_answers.specs.Noting.{noted_reply};
ghost use Rattle.gd_member.specs.Lines.{Answers, told_by};
ghost use Rattle.gd_reference.specs.NodeRun.{IsRead};
ghost use Rattle.gd_reference.specs.SiteEffects.{done_replies};
ghost use Rattle.gd_reference.specs.SlowSite.{SlowSite};

use crate::asking::say_who;
use crate::member::Member;
use crate::told::Told;
use gd_answers::{Said, back_refusal, edit_refusal, line_refusal, noted_reply};
use gd_base::{Edit, LineFault, Name, Refusal, Stamp, Steps};
use gd_events::Event;
use gd_lines::Turn;
use gd_site::NoteEnd;
use gd_words::{Command, Line, Reply, what_is_read_is_in_range};
use std::alloc::AllocError;
use std::sync::ledger::Ledger;

impl Member {
    ghost use Rattle.gd_member.specs.Members.{IsLive};
    ghost use Rattle.gd_member.specs.Standing.{Stands};

    /// Takes a line, without its line feed: an edit, `undo`, `redo`, `name`, `focus`, `status` or `who`. What a node
    /// prints of it is said behind what was said, and its events are unwritten then. A line that is faulty, or asks
    /// for what is refused, is said as refused, and leaves the member as it was. `show`, `poll`, `begin`, `end`,
    /// `quit` and a blank line do and say nothing.
    ///
    /// `AllocError` where memory ran out. Then the member is as before, or it is spent.
    pub fn line<L: Ledger>(
        &mut self,
        line: &[u8],
        said: &mut Said,
        steps: &mut Steps<L>,
    ) -> Result<Told, AllocError>
        requires { IsLive self.old }
        ensures { (slow : SlowSite) (written : List EventValue) → Stands slow written self.old
            → Answers slow written (read line.now) result
            self.new said.old said.new steps.old steps.new }
    {
        what_is_read_is_in_range();
        self.answer(read(line), said, steps)
    }

    /// The same of a line that was read.
    fn answer<L: Ledger>(
        &mut self,
        line: Result<Command, LineFault>,
        said: &mut Said,
        steps: &mut Steps<L>,
    ) -> Result<Told, AllocError>
        requires live { IsLive self.old }
        requires read { IsRead line }
        ensures { (slow : SlowSite) (written : List EventValue) → Stands slow written self.old
            → Answers slow written line result self.new said.old said.new steps.old steps.new }
    {
        match line {
            Ok(Command::Edit(edit)) => self.take_edit(&edit, said, steps),
            Ok(Command::Turn(which)) => self.take_turn(which, said, steps),
            Ok(Command::Name(name)) => self.take_name(name, said),
            Ok(Command::Focus(focus)) => self.take_focus(focus, said),
            Ok(Command::Status) => self.tell_status(said),
            Ok(Command::Who) => self.tell_who(said),
            Ok(Command::Show) => Ok(Told::Other),
            Ok(Command::Poll) => Ok(Told::Other),
            Ok(Command::Begin) => Ok(Told::Other),
            Ok(Command::End) => Ok(Told::Other),
            Ok(Command::Blank) => Ok(Told::Other),
            Ok(Command::Quit) => Ok(Told::Other),
            Err(fault) => refuse(Some(line_refusal(fault)), said),
        }
    }

    /// An edit. `AllocError` where memory ran out, and then the member is as before, or it is spent.
    fn take_edit<L: Ledger>(
        &mut self,
        edit: &Edit,
        said: &mut Said,
        steps: &mut Steps<L>,
    ) -> Result<Told, AllocError>
        requires live { IsLive self.old }
        requires ranged { IsEdit edit.now }
        ensures { (slow : SlowSite) (written : List EventValue) → Stands slow written self.old
            → Answers slow written (Ok (command.Edit edit.now)) result
            self.new said.old said.new steps.old steps.new }
    {
        match self.edit(edit, steps) {
            Ok(id) => {
                let added = said.add(&Reply::Done { id });
                self.or_spent(added, Told::Done)
            }
            Err(fault) => refuse(edit_refusal(fault), said),
        }
    }

    /// An undo, or a redo. `AllocError` where memory ran out, and then the member is spent.
    fn take_turn<L: Ledger>(
        &mut self,
        which: Turn,
        said: &mut Said,
        steps: &mut Steps<L>,
    ) -> Result<Told, AllocError>
        requires { IsLive self.old }
        ensures { (slow : SlowSite) (written : List EventValue) → Stands slow written self.old
            → Answers slow written (Ok (command.Turn which)) result
            self.new said.old said.new steps.old steps.new }
    {
        match self.turn_events(which, steps) {
            Ok(events) => {
                let added = say_done(events.as_slice(), said);
                self.or_spent(added, Told::Done)
            }
            Err(fault) => refuse(back_refusal(fault), said),
        }
    }

    /// A name. `AllocError` where memory ran out, and then the member is spent.
    fn take_name(&mut self, name: Name, said: &mut Said) -> Result<Told, AllocError>
        requires { IsLive self.old }
        ensures { (slow : SlowSite) (written : List EventValue) (steps : ℕ)
            → Stands slow written self.old → Answers slow written (Ok (command.Name name)) result
            self.new said.old said.new steps steps }
    {
        let noted = self.set_name(name);
        self.say_noted(noted, said)
    }

    /// A focus. `AllocError` where memory ran out, and then the member is spent.
    fn take_focus(&mut self, focus: Option<Stamp>, said: &mut Said) -> Result<Told, AllocError>
        requires { IsLive self.old }
        ensures { (slow : SlowSite) (written : List EventValue) (steps : ℕ)
            → Stands slow written self.old → Answers slow written (Ok (command.Focus focus)) result
            self.new said.old said.new steps steps }
    {
        let noted = self.set_focus(focus);
        self.say_noted(noted, said)
    }

    /// What came of a new note. `AllocError` where memory ran out, and then the member is spent.
    fn say_noted(
        &mut self,
        noted: Result<u16, NoteEnd>,
        said: &mut Said,
    ) -> Result<Told, AllocError>
        ensures told { IfOk result (λ told. told ≡ told_by noted) }
        ensures said { OnOk result (said.new ≡ said.old ++ reply_text (noted_reply noted)) }
        ensures same { OnOk result (self.new ≡ self.old) }
        ensures spent { OnErr result (self.new.spent ≡ true) }
    {
        let told = told_by(&noted);
        let added = said.add(&noted_reply(noted));
        self.or_spent(added, told)
    }

    /// What was done came to this, if that could be said. Else the member is spent.
    fn or_spent(&mut self, said: Result<(), AllocError>, told: Told) -> Result<Told, AllocError>
        ensures told { IfOk result (λ answer. answer ≡ told) }
        ensures said { OnOk result (said ≡ Ok tt) }
        ensures same { OnOk result (self.new ≡ self.old) }
        ensures spent { OnErr result (self.new.spent ≡ true) }
    {
        match said {
            Ok(()) => Ok(told),
            Err(why) => {
                self.spent = true;
                Err(why)
            }
        }
    }

    /// Where the site stands. `AllocError` where memory ran out, and then the member is as before.
    fn tell_status(&self, said: &mut Said) -> Result<Told, AllocError>
        requires { IsLive self.now }
        ensures { (slow : SlowSite) (written : List EventValue) (steps : ℕ)
            → Stands slow written self.now → Answers slow written (Ok command.Status) result
            self.now said.old said.new steps steps }
    {
        let status = self.status();
        said.add(&Reply::Status { status })?;
        Ok(Told::Done)
    }

    /// The notes of all sites. `AllocError` where memory ran out, and then the member is as before.
    fn tell_who(&self, said: &mut Said) -> Result<Told, AllocError>
        requires { IsLive self.now }
        ensures { (slow : SlowSite) (written : List EventValue) (steps : ℕ)
            → Stands slow written self.now → Answers slow written (Ok command.Who) result
            self.now said.old said.new steps steps }
    {
        say_who(&self.site, said)?;
        Ok(Told::Done)
    }
}

/// What a line asks for, or why it is no line.
pub(crate) fn read(line: &[u8]) -> Result<Command, LineFault>
    ensures { result ≡ read line.now }
{
    Line::read(line)
}

/// Whether it was noted.
fn told_by(noted: &Result<u16, NoteEnd>) -> Told
    ensures { result ≡ told_by noted.now }
{
    match noted {
        Ok(_) => Told::Done,
        Err(_) => Told::Refused,
    }
}

/// Says that these events were done, and how many there are. `AllocError` where memory ran out.
fn say_done(events: &[Event], said: &mut Said) -> Result<(), AllocError>
    ensures { OnOk result (said.new ≡ said.old ++ flat_map reply_text (done_replies events.now)) }
{
    for event in events {
        said.add(&Reply::Done { id: event.stamp() })?;
    }
    said.add(&Reply::End {
        count: events.len() as u64,
    })
}

/// Says why something is refused. `AllocError` where there is no reason, since memory had run out, or where it runs
/// out now.
fn refuse(why: Option<Refusal>, said: &mut Said) -> Result<Told, AllocError>
    ensures { IfOk result (λ told. (told ≡ Told.Refused) × (reason : RefusalValue)
        × (why ≡ Some reason) × (said.new ≡ said.old ++ reply_text (reply.Refused reason))) }
{
    let why = why.ok_or(AllocError {})?;
    said.add(&Reply::Refused { why })?;
    Ok(Told::Refused)
}
