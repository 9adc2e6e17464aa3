ghost use Rattle.std.specs.Prelude.{◌≡◌, ◌≤◌, ◌↔◌, length, None, Some, IsErr, IsTrue, IfOk, IfSome, OnOk, OnErr};
ghost use Rattle.std.specs.List.{slice_get};
ghost use Rattle.gd_outside.specs.declared.fail.Call.TheVariants.{Open, Send};
ghost use Rattle.gd_outside.specs.Causes.{counted};
ghost use Rattle.gd_outside.specs.Fails.{is_listed};
ghost use Rattle.gd_outside.specs.Links.{FitsBuffer, IsOpen, LinkCalled, StaysOpen, Takes, Took, one_try};
ghost use Rattle.gd_outside.specs.MemoryLinks.{faults_after, new_link, seen_link, with_addresses, with_entry};
ghost use Rattle.gd_outside.specs.MemoryLinks.{with_frame, without_entry};
ghost use Rattle.gd_outside.specs.Seen.{Packet, Pause, Failure};
ghost use Rattle.gd_outside.specs.Told.{Grows, Stays};

use crate::fail::{Call, Fail, Failed, is_listed};
use crate::link::{Link, Received, Sent};
use crate::memory::entry::KeptEntry;
use crate::memory::kept_link::LinkMemory;
use crate::words::WordList;
use std::alloc::{AllocError, Global};
use std::marker::Model;

/// Entries in memory, memory for a number of bytes, its room, of which each address and each frame tried takes its
/// length and one more, and the list of the opens and sends that fail. A receive fails where its entry is a failure.
/// Past its room it keeps no more, and tells nothing.
#[derive(Drop)]
pub struct MemoryLink {
    link: LinkMemory,
    fails: Vec<Fail>,
    opens: u64,
    sends: u64,
    faults: u64,
}

impl Model for MemoryLink {
    ghost use Rattle.gd_outside.specs.MemoryLinks.{ListedLink};

    ghost Value = { ListedLink };

    ghost view = { λ s. record {
      kept = s.link;
      fails = s.fails.items;
      opens = s.opens;
      sends = s.sends;
      faults = s.faults;
    } };
}

impl MemoryLink {
    /// No entries, addresses and frames. Takes the memory for `room` bytes at once. `AllocError` where there is none.
    pub fn new(alloc: Global, room: usize, fails: &[Fail]) -> Result<Self, AllocError>
        ensures { IfOk result (λ link. link ≡ record {
          kept = new_link room;
          fails = fails.now;
          opens = 0;
          sends = 0;
          faults = 0;
        }) }
    {
        Ok(MemoryLink {
            link: LinkMemory::new(alloc, room)?,
            fails: fails.to_vec(alloc)?,
            opens: 0,
            sends: 0,
            faults: 0,
        })
    }

    /// Puts a datagram behind the entries. `AllocError` where memory ran out, and then all is as before.
    pub fn add_datagram(&mut self, bytes: &[u8]) -> Result<(), AllocError>
        ensures ok { OnOk result (self.new
            ≡ record self.old { kept = with_entry self.old.kept (Packet bytes.now) }) }
        ensures err { OnErr result (self.new ≡ self.old) }
    {
        let entry = KeptEntry::datagram(self.link.alloc(), bytes)?;
        self.link.add(entry)
    }

    /// Puts a pause, at which nothing is there, behind the entries. `AllocError` where memory ran out, and then all is
    /// as before.
    pub fn add_nothing(&mut self) -> Result<(), AllocError>
        ensures ok { OnOk result (self.new
            ≡ record self.old { kept = with_entry self.old.kept Pause }) }
        ensures err { OnErr result (self.new ≡ self.old) }
    {
        self.link.add(KeptEntry::pause())
    }

    /// Puts a failure behind the entries. `AllocError` where memory ran out, and then all is as before.
    pub fn add_failure(&mut self) -> Result<(), AllocError>
        ensures ok { OnOk result (self.new
            ≡ record self.old { kept = with_entry self.old.kept Failure }) }
        ensures err { OnErr result (self.new ≡ self.old) }
    {
        self.link.add(KeptEntry::failure())
    }

    /// The k-th frame that is kept, counted from 0, and the site that it was tried for. None where there are no more.
    pub fn tried(&self, k: usize) -> Option<(u8, &[u8])>
        ensures frame { IfSome result (λ t. slice_get self.now.kept.tried k
            ≡ Some (record { to = t.0; frame = t.1.now })) }
        ensures none { result ≡ None → length self.now.kept.tried ≤ k }
    {
        self.link.tried(k)
    }

    /// Fails where the list says so, and counts that.
    fn fail_if_listed(&mut self, call: Call, number: u64) -> Result<(), Failed>
        ensures listed { IsErr result ↔ IsTrue (is_listed self.old.fails call number) }
        ensures ok { OnOk result (self.new ≡ self.old) }
        ensures err { OnErr result
            (self.new ≡ record self.old { faults = counted self.old.faults }) }
        ensures count { self.old.faults ≤ self.new.faults }
    {
        if is_listed(&self.fails, call, number) {
            self.faults = self.faults.saturating_add(1);
            return Err(Failed);
        }
        Ok(())
    }
}

impl Link for MemoryLink {
    ghost seen = { seen_link };

    fn open(&mut self, addresses: &WordList, me: u8) -> Result<(), Failed>
        ensures entries { Stays (seen_link self.old).entries (seen_link self.new).entries }
        ensures tried { Stays (seen_link self.old).tried (seen_link self.new).tried }
        ensures opened { OnOk result (IsOpen addresses.now me (seen_link self.new)) }
        ensures called { LinkCalled (seen_link self.old) (seen_link self.new) (IsErr result) }

        // It fails exactly at the opens of its list, where it changes nothing but its counts.
        ensures listed { IsErr result ↔ IsTrue (is_listed self.old.fails Call.Open
            (counted self.old.opens)) }
        ensures ok { OnOk result (self.new ≡ record self.old {
          kept = with_addresses self.old.kept addresses.now me;
          opens = counted self.old.opens;
        }) }
        ensures err { OnErr result (self.new ≡ record self.old {
          opens = counted self.old.opens;
          faults = counted self.old.faults;
        }) }
    {
        self.opens = self.opens.saturating_add(1);
        self.fail_if_listed(Call::Open, self.opens)?;
        self.link.open(addresses.as_slice(), me);
        Ok(())
    }

    fn receive(&mut self, buf: &mut [u8]) -> Received
        ensures size { FitsBuffer result buf.new }
        ensures taken { Takes (seen_link self.old).entries result buf.new
            (seen_link self.new).entries }
        ensures tried { Stays (seen_link self.old).tried (seen_link self.new).tried }
        ensures open { StaysOpen (seen_link self.old) (seen_link self.new) }
        ensures called { LinkCalled (seen_link self.old) (seen_link self.new)
            (result ≡ Received.Failed) }

        // It takes the next entry past its room too, and counts where that is a failure.
        ensures took { Took self.old.kept.entries result buf.new self.new.kept.entries }
        ensures kept { self.new ≡ record self.old {
          kept = without_entry self.old.kept;
          faults = faults_after result self.old.faults;
        } }
    {
        let received = self.link.take(buf);
        if let Received::Failed = received {
            self.faults = self.faults.saturating_add(1);
        }
        received
    }

    fn send(&mut self, to: u8, frame: &[u8]) -> Sent
        ensures entries { Stays (seen_link self.old).entries (seen_link self.new).entries }
        ensures tried { Grows (seen_link self.old).tried (one_try to frame.now)
            (seen_link self.new).tried }
        ensures open { StaysOpen (seen_link self.old) (seen_link self.new) }
        ensures called { LinkCalled (seen_link self.old) (seen_link self.new) (result ≡ Sent.Lost) }

        // Exactly the frames at the sends of its list are lost, and all are kept.
        ensures listed { result ≡ Sent.Lost ↔ IsTrue (is_listed self.old.fails Call.Send
            (counted self.old.sends)) }
        ensures out { result ≡ Sent.Out → self.new ≡ record self.old {
          kept = with_frame self.old.kept to frame.now;
          sends = counted self.old.sends;
        } }
        ensures lost { result ≡ Sent.Lost → self.new ≡ record self.old {
          kept = with_frame self.old.kept to frame.now;
          sends = counted self.old.sends;
          faults = counted self.old.faults;
        } }
    {
        self.sends = self.sends.saturating_add(1);
        self.link.try_frame(to, frame);
        match self.fail_if_listed(Call::Send, self.sends) {
            Ok(()) => Sent::Out,
            Err(Failed) => Sent::Lost,
        }
    }
}
