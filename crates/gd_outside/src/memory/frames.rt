ghost use Rattle.std.specs.Prelude.{◌≡◌, ◌+◌, ◌≤◌, [], ◌++◌, length, Some, IfOk, IfSome};
ghost use Rattle.std.specs.List.{slice_get};
ghost use Rattle.gd_outside.specs.Links.{one_try};
ghost use Rattle.gd_outside.specs.MemoryLinks.{frames_size};

use crate::memory::texts::Texts;
use std::alloc::{AllocError, Global};
use std::marker::Model;

/// Frames and the sites that they were tried for, in memory that was taken at once. Each takes its length and one more
/// of the room.
#[derive(Drop)]
pub(crate) struct Frames {
    sites: Vec<u8>,
    texts: Texts,
}

impl Model for Frames {
    ghost use Rattle.std.specs.Prelude.{◌≡◌, ◌≤◌, length, vec_capacity};
    ghost use Rattle.gd_outside.specs.LinkParts.{KeptFrames, tried_for};

    ghost Value = { KeptFrames };

    ghost view = { λ f. record
        { tried = tried_for f.sites.items f.texts.texts; room = f.texts.room } };

    ghost invariant = { λ f. (length f.sites.items ≡ length f.texts.texts)
        × (f.texts.room ≤ vec_capacity f.sites) };
}

impl Frames {
    /// No frames. Takes the memory for as many as fit into `room`.
    pub(crate) fn new(alloc: Global, room: usize) -> Result<Self, AllocError>
        ensures { IfOk result (λ frames. frames ≡ record { tried = []; room = room }) }
    {
        Ok(Frames {
            sites: Vec::with_capacity(alloc, room)?,
            texts: Texts::new(alloc, room)?,
        })
    }

    /// What the frames take of the room.
    pub(crate) fn size(&self) -> usize
        ensures size { result ≡ frames_size self.now.tried }
        ensures fits { result ≤ self.now.room }
    {
        self.texts.size()
    }

    /// The k-th frame, counted from 0, and its site. None where there are no more frames.
    pub(crate) fn get(&self, k: usize) -> Option<(u8, &[u8])>
        ensures frame { IfSome result (λ t. slice_get self.now.tried k
            ≡ Some (record { to = t.0; frame = t.1.now })) }
        ensures none { result ≡ None → length self.now.tried ≤ k }
    {
        let frame = self.texts.get(k)?;
        Some((self.sites[k], frame))
    }

    /// Puts the frame last.
    pub(crate) fn push(&mut self, to: u8, frame: &[u8])
        requires { frames_size self.old.tried + (length frame.now + 1) ≤ self.old.room }
        ensures { self.new ≡ record self.old { tried = self.old.tried ++ one_try to frame.now } }
    {
        self.sites.push(to).unwrap();
        self.texts.push(frame);
    }
}
