//! What a handle holds, and what it answers.
ghost use Rattle.std.specs.Prelude.{◌≡◌, ◌<◌, [], IfOk, length, pos};
ghost use Rattle.gd_base.specs.Sites.{is_site};
ghost use Rattle.gd_embed.specs.Naming.{name_of};

use crate::answers::Fault;
use crate::buffers::{copy_of, fill};
use crate::records::{Noted, Standing};
use crate::told::Told;
use gd_answers::Said;
use gd_base::{LogWhy, Note, Steps};
use gd_member::{Member, SendFault, Told as Came, events_json};
use gd_rejoin::ResumeFault;
use gd_wire::FrameBytes;
use gd_words::Reply;
use std::alloc::{AllocError, Global};
use std::sync::ledger::{Blank, Ledger};

/// A member, and what it said last.
#[derive(Drop)]
pub struct Held {
    pub member: Member,
    pub said: Told,
}

impl Held {
    ghost use Rattle.gd_embed.specs.Calls.{Calls};
    ghost use Rattle.gd_embed.specs.Saying.{
      BlamesFor,
      EventsIs,
      GestureIs,
      LineIs,
      NoteAnswerIs,
      TakeIs,
      TellsOf,
      json_of,
      snapshot_of,
      text_of,
    };
    ghost use Rattle.gd_embed.specs.Telling.{
      FrameAnswerIs,
      HeadIs,
      PartedIs,
      SaidIs,
      StandingIs,
      UnwrittenIs,
      WrittenIs,
    };
    ghost use Rattle.gd_member.specs.Members.{IsLive};

    /// A member that has said nothing. It takes no memory.
    pub fn new(alloc: Global, member: Member) -> Held
        ensures member { result.member ≡ member }
        ensures said { result.said ≡ [] }
    {
        Held {
            member,
            said: Told::nothing(alloc),
        }
    }

    /// Takes a line, and keeps what there is to say of it.
    pub fn line<L: Ledger>(
        &mut self,
        alloc: Global,
        line: &[u8],
        blank: Blank,
    ) -> Result<i64, Fault>
        requires live { IsLive self.old.member }
        requires name { blank.name ≡ L.name }
        requires parts { blank.parts ≡ L.parts }
        requires some { 0 < blank.parts }
        ensures { Calls (LineIs line.now) self.old result self.new }
    {
        let mut said = self.said.no_replies(alloc);
        let mut steps = Steps::<L>::new(blank);
        match self.member.line(line, &mut said, &mut steps) {
            Ok(Came::Done) => {
                self.said.tell(said);
                Ok(count_of(self.said.as_bytes()))
            }
            Ok(Came::Refused) => {
                self.said.tell(said);
                Err(Fault::Refused)
            }
            Ok(Came::Other) => Err(Fault::NotHere),
            Err(_) => Err(Fault::NoMemory),
        }
    }

    /// Takes the lines of a gesture, and keeps what there is to say of them.
    pub fn gesture<L: Ledger>(
        &mut self,
        alloc: Global,
        lines: &[u8],
        blank: Blank,
    ) -> Result<i64, Fault>
        requires live { IsLive self.old.member }
        requires name { blank.name ≡ L.name }
        requires parts { blank.parts ≡ L.parts }
        requires some { 0 < blank.parts }
        ensures { Calls (GestureIs lines.now) self.old result self.new }
    {
        let mut said = self.said.no_replies(alloc);
        let mut steps = Steps::<L>::new(blank);
        match self.member.gesture(lines, &mut said, &mut steps) {
            Ok(_) => {
                self.said.tell(said);
                Ok(count_of(self.said.as_bytes()))
            }
            Err(_) => Err(Fault::NoMemory),
        }
    }

    /// Takes a datagram, and keeps what there is to say of it.
    pub fn take<L: Ledger>(
        &mut self,
        alloc: Global,
        datagram: &[u8],
        blank: Blank,
    ) -> Result<i64, Fault>
        requires live { IsLive self.old.member }
        requires name { blank.name ≡ L.name }
        requires parts { blank.parts ≡ L.parts }
        requires some { 0 < blank.parts }
        ensures { Calls (TakeIs datagram.now) self.old result self.new }
    {
        let mut said = self.said.no_replies(alloc);
        let mut steps = Steps::<L>::new(blank);
        match self.member.take(datagram, &mut said, &mut steps) {
            Ok(Some(_)) => {
                self.said.tell(said);
                Ok(count_of(self.said.as_bytes()))
            }
            Ok(None) => {
                self.said.tell(said);
                Err(Fault::Refused)
            }
            Err(_) => Err(Fault::NoMemory),
        }
    }

    /// Has it say its drawing as JSON.
    pub fn json(&mut self) -> Result<i64, Fault>
        ensures { Calls (TellsOf json_of) self.old result self.new }
    {
        match self.member.json() {
            Ok(line) => {
                self.said = Told::json(line);
                Ok(count_of(self.said.as_bytes()))
            }
            Err(_) => Err(Fault::NoMemory),
        }
    }

    /// Has it say its drawing as lines.
    pub fn text(&mut self) -> Result<i64, Fault>
        ensures { Calls (TellsOf text_of) self.old result self.new }
    {
        match self.member.text() {
            Ok(bytes) => {
                self.said = Told::bytes(bytes);
                Ok(count_of(self.said.as_bytes()))
            }
            Err(_) => Err(Fault::NoMemory),
        }
    }

    /// Has it say its snapshot.
    pub fn snapshot<L: Ledger>(&mut self, blank: Blank) -> Result<i64, Fault>
        requires name { blank.name ≡ L.name }
        requires parts { blank.parts ≡ L.parts }
        requires some { 0 < blank.parts }
        ensures { Calls (TellsOf snapshot_of) self.old result self.new }
    {
        let mut steps = Steps::<L>::new(blank);
        match self.member.snapshot(&mut steps) {
            Ok(bytes) => {
                self.said = Told::bytes(bytes);
                Ok(count_of(self.said.as_bytes()))
            }
            Err(_) => Err(Fault::NoMemory),
        }
    }

    /// Has it say the events of its journal.
    pub fn events(&mut self, alloc: Global, journal: &[u8]) -> Result<i64, Fault>
        requires { IsLive self.old.member }
        ensures { Calls (EventsIs journal.now) self.old result self.new }
    {
        let Ok(bytes) = copy_of(alloc, journal) else {
            return Err(Fault::NoMemory);
        };
        self.member.stands();
        let (me, sites) = (self.member.me(), self.member.sites());
        match events_json(alloc, bytes, me, sites, self.member.session()) {
            Ok(line) => {
                self.said = Told::json(line);
                Ok(count_of(self.said.as_bytes()))
            }
            Err(ResumeFault::Bad { at, why }) => self.blame(alloc, at, why),
            Err(ResumeFault::Other { found: _ }) => Err(Fault::OtherJournal),
            Err(_) => Err(Fault::NoMemory),
        }
    }

    /// Has it say the line of a fault of a journal.
    fn blame(&mut self, alloc: Global, at: u64, why: LogWhy) -> Result<i64, Fault>
        ensures { BlamesFor at why self.old result self.new }
    {
        let mut said = Said::new(alloc);
        match said.add(&Reply::BadLog { at, why }) {
            Ok(()) => {
                self.said.tell(said);
                Err(Fault::BadJournal)
            }
            Err(_) => Err(Fault::NoMemory),
        }
    }

    /// Hands out the newest note of a site, and has it say the name.
    pub fn note(&mut self, alloc: Global, site: u8, out: &mut Noted) -> Result<i64, Fault>
        ensures { Calls (NoteAnswerIs site out.old out.new) self.old result self.new }
    {
        if !self.has_site(site) {
            return Err(Fault::NoSite);
        }
        let note = self.member.note(site);
        if note.number == 0 {
            return Err(Fault::NoNote);
        }
        match bytes_of(alloc, &note) {
            Ok(bytes) => {
                self.said = Told::bytes(bytes);
                *out = Noted::of(&note);
                Ok(count_of(self.said.as_bytes()))
            }
            Err(_) => Err(Fault::NoMemory),
        }
    }

    /// What a journal begins with, to a buffer.
    pub fn journal_head(&self, out: &mut [u8], needed: &mut u64) -> Result<i64, Fault>
        ensures { Calls (HeadIs (record { old = out.old; new = out.new; needed = needed.new }))
            self.now result self.now }
    {
        fill(self.member.journal_head().as_slice(), out, needed)
    }

    /// What was said last, to a buffer.
    pub fn told(&self, out: &mut [u8], needed: &mut u64) -> Result<i64, Fault>
        ensures { Calls (SaidIs (record { old = out.old; new = out.new; needed = needed.new }))
            self.now result self.now }
    {
        fill(self.said.as_bytes(), out, needed)
    }

    /// What the journal doesn't have, to a buffer, and its place.
    pub fn unwritten(&self, place: &mut u64, out: &mut [u8], needed: &mut u64) -> Result<i64, Fault>
        ensures { Calls (UnwrittenIs place.new
            (record { old = out.old; new = out.new; needed = needed.new }))
            self.now result self.now }
    {
        *place = self.member.place();
        fill(self.member.unwritten(), out, needed)
    }

    /// Tells it that the journal has what is unwritten, of so many bytes.
    pub fn written(&mut self, count: u64) -> Result<i64, Fault>
        requires { IsLive self.old.member }
        ensures { Calls (WrittenIs count) self.old result self.new }
    {
        if self.member.unwritten().len() as u64 != count {
            return Err(Fault::NotThese);
        }
        self.member.written();
        Ok(0)
    }

    /// A frame for another site, to a buffer, and how many own events that site has then.
    pub fn frame(
        &self,
        to: u8,
        behind: &mut u16,
        out: &mut [u8],
        needed: &mut u64,
    ) -> Result<i64, Fault>
        requires { IsLive self.now.member }
        ensures { Calls (FrameAnswerIs to behind.old behind.new
            (record { old = out.old; new = out.new; needed = needed.new }))
            self.now result self.now }
    {
        let mut bytes = FrameBytes::new();
        match self.member.write_frame(to, *behind, &mut bytes) {
            Ok(brought) => {
                let count = fill(bytes.as_slice(), out, needed)?;
                *behind = brought;
                Ok(count)
            }
            Err(SendFault::NoSuchSite) => Err(Fault::NoSite),
            Err(SendFault::Unwritten) => Err(Fault::Unwritten),
        }
    }

    /// Where it stands.
    pub fn standing(&self, out: &mut Standing) -> Result<i64, Fault>
        ensures { Calls (StandingIs out.new) self.now result self.now }
    {
        *out = Standing::of(&self.member.status());
        Ok(0)
    }

    /// At which count it has parted from a site.
    pub fn parted(&self, site: u8) -> Result<i64, Fault>
        ensures { Calls (PartedIs site) self.now result self.now }
    {
        if !self.has_site(site) {
            return Err(Fault::NoSite);
        }
        match self.member.parted(site) {
            Some(count) => Ok(i64::from(count)),
            None => Err(Fault::NotParted),
        }
    }

    /// Whether the session has such a site.
    fn has_site(&self, site: u8) -> bool
        ensures { result ≡ is_site self.now.member.site.peers.sites site }
    {
        1 <= site && site <= self.member.sites()
    }
}

/// How many bytes there are.
fn count_of(bytes: &[u8]) -> i64
    ensures { result ≡ pos (length bytes.now) }
{
    bytes.len() as i64
}

/// The bytes of a note's name. `AllocError` where memory ran out.
fn bytes_of(alloc: Global, note: &Note) -> Result<Vec<u8>, AllocError>
    ensures { IfOk result (λ bytes. bytes.items ≡ name_of note.now.name) }
{
    let mut bytes = Vec::new(alloc);
    match &note.name {
        Some(name) => bytes.extend_from_slice(name.as_str().as_bytes())?,
        None => {}
    }
    Ok(bytes)
}
