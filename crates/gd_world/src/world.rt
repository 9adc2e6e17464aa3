//! A world in memory.

ghost use Rattle.std.specs.Prelude.{◌≡◌, ◌≤◌, ◌+◌, ℕ, Ok, IfOk, IfSome, length};
ghost use Rattle.gd_base.specs.Sites.{is_site};
ghost use Rattle.std.specs.List.{AllByRecursion};
ghost use Rattle.gd_base.specs.declared.ranges.TheConstants.{SITES};
ghost use Rattle.gd_lines.specs.InRange.{IsCommand};
ghost use Rattle.gd_lines.specs.declared.command.ScriptLine.TheVariants as script;
ghost use Rattle.gd_reference.specs.Offers.{frame_for};
ghost use Rattle.gd_reference.specs.SlowSite.{SlowSite};
ghost use Rattle.gd_reference.specs.World.{World as SlowWorld, start};
ghost use Rattle.gd_site.specs.Sites.{StandsFor as SiteStandsFor};
ghost use Rattle.gd_stable.specs.Peers.{IsOther};
ghost use Rattle.gd_world.specs.Answers.{DeliverIs, IsEcho, LineIs, SendIs};
ghost use Rattle.gd_world.specs.Calls.{Comes};
ghost use Rattle.gd_world.specs.Standing.{AreNew};
ghost use Rattle.gd_worlds.specs.Rehearsal.{after_script, script_work};

use crate::fault::WorldFault;
use crate::hearing::hear;
use crate::mail::Mail;
use crate::member::Member;
use crate::replies::Replies;
use crate::telling::tell;
use gd_base::Steps;
use gd_lines::Command;
use gd_site::Site;
use gd_takeback::TakeBack;
use gd_wire::{Frame, FrameBytes, FrameError, read_frame};
use std::alloc::{AllocError, Global};
use std::marker::Model;
use std::sync::ledger::Ledger;

/// The sites of a session, and all mail that was ever sent between them: no mail is taken away, so it comes late,
/// twice, or never. There is a world of reference sites for which it stands, and to which some steps lead; once memory
/// ran out in a call it has neither sites nor mail.
#[derive(Drop)]
pub struct World {
    pub(crate) members: Vec<Member>,
    pub(crate) mail: Mail,
}

impl Model for World {
    ghost use Rattle.gd_world.specs.Standing.{IsKept, WorldValue};

    ghost Value = { WorldValue };

    ghost view = { λ w. record { members = w.members.items; mail = w.mail } };

    ghost invariant = { λ w. IsKept (record { members = w.members.items; mail = w.mail }) };
}

impl World {
    ghost use Rattle.gd_world.specs.Standing.{StandsFor};

    /// `n` new sites of a session, and no mail. `AllocError` where memory ran out.
    pub fn new(alloc: Global, n: u8, session: u32) -> Result<Self, AllocError>
        requires from { 1 ≤ n }
        requires to { n ≤ SITES }
        ensures { IfOk result (λ world. StandsFor (start n session) world) }
    {
        let members = new_members(alloc, n, session)?;
        Ok(World {
            members,
            mail: Mail::new(alloc),
        })
    }

    /// Asks a site for what a line says, and returns what the site says. A poll says nothing here, and takes nothing: a
    /// world has mail, and no link.
    ///
    /// `NoSite` where there is no such site; then nothing has changed. `NoMemory` where memory ran out.
    pub fn line<L: Ledger>(
        &mut self,
        site: u8,
        command: &Command,
        steps: &mut Steps<L>,
    ) -> Result<Replies, WorldFault>
        requires { IsCommand command.now }
        ensures answer { (w : SlowWorld) → StandsFor w self.old → LineIs w site command.now result }
        ensures comes { (w : SlowWorld) → StandsFor w self.old →
            let line = Ok (script.At site command.now) in
            Comes (after_script w line) (script_work w line) result
            self.old steps.old self.new steps.new }
    {
        if !self.is_site(site) {
            return Err(WorldFault::NoSite);
        }
        let alloc = self.alloc();
        let member = &mut self.members[usize::from(site) - 1];
        let told = tell(alloc, member, command, steps);
        if told.is_err() {
            self.members.clear();
            self.mail = Mail::new(alloc);
        }
        told
    }

    /// Makes the frame of a site for another one the next mail, and returns its number, from 1.
    ///
    /// `NoSite` where there is no such site, or both are one; then nothing has changed. `NoMemory` where memory ran
    /// out.
    pub fn send(&mut self, from: u8, to: u8) -> Result<u32, WorldFault>
        ensures answer { (w : SlowWorld) → StandsFor w self.old → SendIs w from to result }
        ensures comes { (w : SlowWorld) → StandsFor w self.old → (steps : ℕ) →
            let line = Ok (script.Send from to) in
            Comes (after_script w line) (script_work w line) result
            self.old steps self.new steps }
    {
        if from == to || !self.is_site(from) || !self.is_site(to) {
            return Err(WorldFault::NoSite);
        }
        let Some(number) = number_after(self.mail.len()) else {
            return Err(WorldFault::NoMemory);
        };
        let alloc = self.alloc();
        let frame = frame_for(alloc, &self.members[usize::from(from) - 1].site, to)?;
        self.mail.push(frame)?;
        Ok(number)
    }

    /// Hands the mail of that number to its receiver, and returns what that one says. Any mail can come any number of
    /// times.
    ///
    /// `NoMail` where there is no such mail; then nothing has changed. `NoMemory` where memory ran out.
    pub fn deliver<L: Ledger>(
        &mut self,
        mail: u32,
        steps: &mut Steps<L>,
    ) -> Result<Replies, WorldFault>
        ensures answer { (w : SlowWorld) → StandsFor w self.old → DeliverIs w mail result }
        ensures comes { (w : SlowWorld) → StandsFor w self.old →
            let line = Ok (script.Deliver mail) in
            Comes (after_script w line) (script_work w line) result
            self.old steps.old self.new steps.new }
        // No frame is refused, and no event of it is backdated.
        ensures echoes { IfOk result (λ replies. AllByRecursion IsEcho replies) }
    {
        let alloc = self.alloc();
        let frame = self.mail.get(mail).ok_or(WorldFault::NoMail)?;
        let member = &mut self.members[usize::from(frame.head().to) - 1];
        let said = hear(alloc, member, frame, steps);
        if said.is_err() {
            self.members.clear();
            self.mail = Mail::new(alloc);
        }
        said
    }

    pub(crate) fn alloc(&self) -> Global {
        *self.members.allocator()
    }

    /// Whether the session has a site of that number.
    fn is_site(&self, site: u8) -> bool
        ensures { result ≡ is_site (length self.now.members) site }
    {
        1 <= site && usize::from(site) <= self.members.len()
    }
}

/// The number of the mail that follows so many. None where it has more than 32 bits.
fn number_after(count: usize) -> Option<u32>
    ensures { IfSome result (λ number. number ≡ count + 1) }
{
    u32::try_from(count).ok()?.checked_add(1)
}

/// The frame of a site for another one, as that one reads it. `AllocError` where memory ran out.
fn frame_for(alloc: Global, site: &Site, to: u8) -> Result<Frame, AllocError>
    requires { IsOther site.now.peers to }
    ensures { (slow : SlowSite) → SiteStandsFor slow site.now
        → IfOk result (λ frame. frame ≡ frame_for slow to) }
{
    // Brings the site's invariant into this proof; no effect at run time.
    site.stands();
    let mut bytes = FrameBytes::new();
    site.write_frame(to, &mut bytes);
    match read_frame(alloc, bytes.as_slice()) {
        Ok(frame) => Ok(frame),
        Err(FrameError::Memory) => Err(AllocError),
        Err(FrameError::Fault(_)) => unreachable!(),
    }
}

/// The new sites of a session.
fn new_members(alloc: Global, n: u8, session: u32) -> Result<Vec<Member>, AllocError>
    requires from { 1 ≤ n }
    requires to { n ≤ SITES }
    ensures { IfOk result (λ members. AreNew n session members.items) }
{
    let mut members = Vec::new(alloc);
    'each: for before in 0..n {
        let site = Site::new(alloc, before + 1, n, session)?;
        let backs = TakeBack::new(alloc);
        members.push(Member { site, backs })?;
    }
    Ok(members)
}
