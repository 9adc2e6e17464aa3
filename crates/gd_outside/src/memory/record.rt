ghost use Rattle.std.specs.Prelude.{◌≡◌, ◌≤◌, ◌∷◌, ◌++◌, [], length, IfOk, IsTrue};
ghost use Rattle.gd_outside.specs.Records.{done, fits_record, image_of};

use crate::memory::mark::{Kind, Mark};
use crate::memory::shot::Shot;
use std::alloc::{AllocError, Global};
use std::marker::Model;

/// How many more calls than bytes of pieces a record has room for: a journal that is made of contents takes three.
const SPARE: usize = 3;

/// The calls on a journal, in the order in which they came, with their pieces, in memory that was taken at once.
#[derive(Drop)]
pub(crate) struct CallRecord {
    marks: Vec<Mark>,
    pieces: Vec<u8>,
    room: usize,
}

impl Model for CallRecord {
    ghost use Rattle.std.specs.Prelude.{◌≡◌, ◌+◌, ◌≤◌, length, sum_by, vec_capacity};
    ghost use Rattle.gd_outside.specs.Records.{Recorded, calls_of};

    ghost Value = { Recorded };

    ghost view = { λ r. record { calls = calls_of r.marks.items r.pieces.items; room = r.room } };

    ghost invariant = { λ r. (r.room + 3 ≤ vec_capacity r.marks) × (r.room ≤ vec_capacity r.pieces)
        × (sum_by (λ m. m.len) r.marks.items ≡ length r.pieces.items)
        × (length r.pieces.items ≤ r.room) };
}

impl CallRecord {
    /// No calls. Takes the memory for as many as fit into `room`.
    pub(crate) fn new(alloc: Global, room: usize) -> Result<Self, AllocError>
        ensures { IfOk result (λ calls. calls ≡ record { calls = []; room = room }) }
    {
        let most = room.checked_add(SPARE).ok_or(AllocError)?;
        Ok(CallRecord {
            marks: Vec::with_capacity(alloc, most)?,
            pieces: Vec::with_capacity(alloc, room)?,
            room,
        })
    }

    /// Whether one more call with a piece of that length fits.
    pub(crate) fn fits(&self, len: usize) -> bool
        ensures { result ≡ fits_record self.now.room self.now.calls len }
    {
        self.marks.len() < self.room + SPARE && len <= self.room - self.pieces.len()
    }

    /// Puts the call last.
    pub(crate) fn add(&mut self, kind: Kind, pos: u64, piece: &[u8])
        requires { IsTrue (fits_record self.old.room self.old.calls (length piece.now)) }
        ensures { self.new
            ≡ record self.old { calls = self.old.calls ++ done kind pos piece.now ∷ [] } }
    {
        let len = piece.len();
        self.marks.push(Mark { kind, pos, len }).unwrap();
        self.pieces.extend_from_slice(piece).unwrap();
    }

    /// The image of a crash after these calls in which the first k writes since the last sync that succeeded stand as
    /// written, and the range of each later one holds the byte `fill` alone; but a byte that goes alone over another
    /// one isn't there.
    pub(crate) fn image(&self, alloc: Global, k: u32, fill: u8) -> Result<Vec<u8>, AllocError>
        ensures image { IfOk result (λ image. image.items ≡ image_of k fill self.now.calls) }
        ensures short { length (image_of k fill self.now.calls) ≤ self.now.room }
    {
        let mut shot = Shot::new(alloc, k, fill);
        let mut start = 0;
        for mark in &self.marks {
            let piece = &self.pieces[start..start + mark.len];
            shot.take(alloc, mark.kind, mark.pos, piece)?;
            start += mark.len;
        }
        Ok(shot.into_image())
    }
}
