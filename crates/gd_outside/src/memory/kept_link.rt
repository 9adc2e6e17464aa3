ghost use Rattle.std.specs.Prelude.{◌≡◌, ◌≤◌, length, nat_le, None, Some, IfOk, IfSome, OnOk, OnErr};
ghost use Rattle.std.specs.List.{slice_get};
ghost use Rattle.gd_outside.specs.Links.{FitsBuffer, Took};
ghost use Rattle.gd_outside.specs.MemoryLinks.{new_link, with_addresses, with_entry, with_frame, without_entry};
ghost use Rattle.gd_outside.specs.Texts.{texts_size};

use crate::link::Received;
use crate::memory::entry::KeptEntry;
use crate::memory::frames::Frames;
use crate::memory::texts::Texts;
use crate::words::Word;
use std::alloc::{AllocError, Global};
use std::collections::VecDeque;
use std::marker::Model;

/// The entries of a link still to come, and, in memory that was taken at once, the addresses that it was opened with
/// and the frames tried. Past its room it keeps no more addresses and frames.
#[derive(Drop)]
pub(crate) struct LinkMemory {
    entries: VecDeque<KeptEntry>,
    addresses: Texts,
    me: u8,
    frames: Frames,
    room: usize,
    is_past: bool,
}

impl Model for LinkMemory {
    ghost use Rattle.std.specs.Prelude.{◌≡◌, ◌+◌, ◌≤◌};
    ghost use Rattle.gd_outside.specs.MemoryLinks.{KeptLink, frames_size};
    ghost use Rattle.gd_outside.specs.Texts.{texts_size};

    ghost Value = { KeptLink };

    ghost view = { λ s. record {
      entries = s.entries.items;
      addresses = s.addresses.texts;
      me = s.me;
      tried = s.frames.tried;
      room = s.room;
      is_past = s.is_past;
    } };

    ghost invariant = { λ s. (s.addresses.room ≡ s.room) × (s.frames.room ≡ s.room)
        × (texts_size s.addresses.texts + frames_size s.frames.tried ≤ s.room) };
}

impl LinkMemory {
    /// No entries, addresses and frames.
    pub(crate) fn new(alloc: Global, room: usize) -> Result<Self, AllocError>
        ensures { IfOk result (λ link. link ≡ new_link room) }
    {
        Ok(LinkMemory {
            entries: VecDeque::new(alloc),
            addresses: Texts::new(alloc, room)?,
            me: 0,
            frames: Frames::new(alloc, room)?,
            room,
            is_past: false,
        })
    }

    pub(crate) fn alloc(&self) -> Global {
        *self.entries.allocator()
    }

    /// Puts the entry last. `AllocError` where memory ran out, and then all is as before.
    pub(crate) fn add(&mut self, entry: KeptEntry) -> Result<(), AllocError>
        ensures ok { OnOk result (self.new ≡ with_entry self.old entry) }
        ensures err { OnErr result (self.new ≡ self.old) }
    {
        self.entries.push_back(entry)?;
        Ok(())
    }

    /// Takes the next entry, if there is one, and puts a datagram that fits into the front of the buffer.
    pub(crate) fn take(&mut self, buf: &mut [u8]) -> Received
        ensures size { FitsBuffer result buf.new }
        ensures took { Took self.old.entries result buf.new self.new.entries }
        ensures kept { self.new ≡ without_entry self.old }
    {
        match self.entries.pop_front() {
            None => Received::Nothing,
            Some(entry) => entry.hand_out(buf),
        }
    }

    /// Keeps the addresses and the own number in place of those before, if they fit.
    pub(crate) fn open(&mut self, addresses: &[Word], me: u8)
        ensures { self.new ≡ with_addresses self.old addresses.now me }
    {
        if self.is_past || !fit(addresses, self.room - self.frames.size()) {
            self.is_past = true;
            return;
        }
        self.addresses.replace(addresses);
        self.me = me;
    }

    /// Keeps the frame behind the others, if it fits.
    pub(crate) fn try_frame(&mut self, to: u8, frame: &[u8])
        ensures { self.new ≡ with_frame self.old to frame.now }
    {
        if self.is_past || frame.len() >= self.room - self.addresses.size() - self.frames.size() {
            self.is_past = true;
            return;
        }
        self.frames.push(to, frame);
    }

    /// The k-th frame that is kept, counted from 0, and its site. None where there are no more.
    pub(crate) fn tried(&self, k: usize) -> Option<(u8, &[u8])>
        ensures frame { IfSome result (λ t. slice_get self.now.tried k
            ≡ Some (record { to = t.0; frame = t.1.now })) }
        ensures none { result ≡ None → length self.now.tried ≤ k }
    {
        self.frames.get(k)
    }
}

/// Whether the words fit into that room.
fn fit(words: &[Word], room: usize) -> bool
    ensures { result ≡ nat_le (texts_size words.now) room }
{
    let mut left = room;
    for word in words {
        let size = word.as_str().len();
        if size >= left {
            return false;
        }
        left -= size + 1;
    }
    true
}
