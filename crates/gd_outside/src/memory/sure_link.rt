ghost use Rattle.std.specs.Prelude.{◌≡◌, ◌≤◌, length, None, Some, IsErr, IsOk, IfOk, IfSome, OnOk, OnErr};
ghost use Rattle.std.specs.List.{slice_get};
ghost use Rattle.gd_outside.specs.Links.{FitsBuffer, IsOpen, LinkCalled, StaysOpen, Takes, Took, one_try};
ghost use Rattle.gd_outside.specs.MemoryLinks.{new_link, seen_sure_link, with_addresses, with_entry, with_frame};
ghost use Rattle.gd_outside.specs.MemoryLinks.{without_entry};
ghost use Rattle.gd_outside.specs.Seen.{Packet, Pause};
ghost use Rattle.gd_outside.specs.Told.{Grows, Stays};

use crate::fail::Failed;
use crate::link::{Link, Received, Sent};
use crate::memory::entry::KeptEntry;
use crate::memory::kept_link::LinkMemory;
use crate::words::WordList;
use std::alloc::{AllocError, Global};
use std::marker::Model;

/// Datagrams and pauses in memory, and memory for a number of bytes, its room, of which each address and each frame
/// tried takes its length and one more. No call on it fails. Past its room it keeps no more, and tells nothing.
#[derive(Drop)]
pub struct SureLink {
    link: LinkMemory,
}

impl Model for SureLink {
    ghost use Rattle.std.specs.List.{AllByRecursion};
    ghost use Rattle.gd_outside.specs.LinkParts.{IsNoFailure};
    ghost use Rattle.gd_outside.specs.MemoryLinks.{KeptLink};

    ghost Value = { KeptLink };

    ghost view = { λ s. s.link };

    ghost invariant = { λ s. AllByRecursion IsNoFailure s.link.entries };
}

impl SureLink {
    /// No entries, addresses and frames. Takes the memory for `room` bytes at once. `AllocError` where there is none.
    pub fn new(alloc: Global, room: usize) -> Result<Self, AllocError>
        ensures { IfOk result (λ link. link ≡ new_link room) }
    {
        Ok(SureLink {
            link: LinkMemory::new(alloc, room)?,
        })
    }

    /// Puts a datagram behind the entries. `AllocError` where memory ran out, and then all is as before.
    pub fn add_datagram(&mut self, bytes: &[u8]) -> Result<(), AllocError>
        ensures ok { OnOk result (self.new ≡ with_entry self.old (Packet bytes.now)) }
        ensures err { OnErr result (self.new ≡ self.old) }
    {
        let entry = KeptEntry::datagram(self.link.alloc(), bytes)?;
        self.link.add(entry)
    }

    /// Puts a pause, at which nothing is there, behind the entries. `AllocError` where memory ran out, and then all is
    /// as before.
    pub fn add_nothing(&mut self) -> Result<(), AllocError>
        ensures ok { OnOk result (self.new ≡ with_entry self.old Pause) }
        ensures err { OnErr result (self.new ≡ self.old) }
    {
        self.link.add(KeptEntry::pause())
    }

    /// The k-th frame that is kept, counted from 0, and the site that it was tried for. None where there are no more.
    pub fn tried(&self, k: usize) -> Option<(u8, &[u8])>
        ensures frame { IfSome result (λ t. slice_get self.now.tried k
            ≡ Some (record { to = t.0; frame = t.1.now })) }
        ensures none { result ≡ None → length self.now.tried ≤ k }
    {
        self.link.tried(k)
    }
}

impl Link for SureLink {
    ghost seen = { seen_sure_link };

    fn open(&mut self, addresses: &WordList, me: u8) -> Result<(), Failed>
        ensures entries { Stays (seen_sure_link self.old).entries
            (seen_sure_link self.new).entries }
        ensures tried { Stays (seen_sure_link self.old).tried (seen_sure_link self.new).tried }
        ensures opened { OnOk result (IsOpen addresses.now me (seen_sure_link self.new)) }
        ensures called { LinkCalled (seen_sure_link self.old) (seen_sure_link self.new)
            (IsErr result) }

        // It never fails.
        ensures ok { IsOk result }
        ensures kept { self.new ≡ with_addresses self.old addresses.now me }
    {
        self.link.open(addresses.as_slice(), me);
        Ok(())
    }

    fn receive(&mut self, buf: &mut [u8]) -> Received
        ensures size { FitsBuffer result buf.new }
        ensures taken { Takes (seen_sure_link self.old).entries result buf.new
            (seen_sure_link self.new).entries }
        ensures tried { Stays (seen_sure_link self.old).tried (seen_sure_link self.new).tried }
        ensures open { StaysOpen (seen_sure_link self.old) (seen_sure_link self.new) }
        ensures called { LinkCalled (seen_sure_link self.old) (seen_sure_link self.new)
            (result ≡ Received.Failed) }

        // It never fails, and takes the next entry past its room too.
        ensures sure { ¬ result ≡ Received.Failed }
        ensures took { Took self.old.entries result buf.new self.new.entries }
        ensures kept { self.new ≡ without_entry self.old }
    {
        self.link.take(buf)
    }

    fn send(&mut self, to: u8, frame: &[u8]) -> Sent
        ensures entries { Stays (seen_sure_link self.old).entries
            (seen_sure_link self.new).entries }
        ensures tried { Grows (seen_sure_link self.old).tried (one_try to frame.now)
            (seen_sure_link self.new).tried }
        ensures open { StaysOpen (seen_sure_link self.old) (seen_sure_link self.new) }
        ensures called { LinkCalled (seen_sure_link self.old) (seen_sure_link self.new)
            (result ≡ Sent.Lost) }

        // No frame is lost.
        ensures out { result ≡ Sent.Out }
        ensures kept { self.new ≡ with_frame self.old to frame.now }
    {
        self.link.try_frame(to, frame);
        Sent::Out
    }
}
