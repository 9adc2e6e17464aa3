ghost use Rattle.std.specs.Prelude.{◌≡◌, ◌+◌, ◌≤◌, [], ◌∷◌, ◌++◌, length, IfOk, IfSome};
ghost use Rattle.std.specs.List.{slice_get};
ghost use Rattle.gd_outside.specs.Texts.{texts_size};

use crate::words::Word;
use std::alloc::{AllocError, Global};
use std::marker::Model;

/// Where a text stands in a buffer.
#[derive(Clone, Copy)]
struct Span {
    start: usize,
    end: usize,
}

/// Texts in memory that was taken at once. Each takes its length and one more of the room.
#[derive(Drop)]
pub(crate) struct Texts {
    bytes: Vec<u8>,
    spans: Vec<Span>,
    room: usize,
}

impl Model for Texts {
    ghost use Rattle.std.specs.Prelude.{◌≤◌, map, vec_capacity};
    ghost use Rattle.gd_outside.specs.Texts.{KeptTexts, Stand, text_at};

    ghost Value = { KeptTexts };

    ghost view = { λ t. record
        { texts = map (text_at t.bytes.items) t.spans.items; room = t.room } };

    ghost invariant = { λ t. (t.room ≤ vec_capacity t.bytes) × (t.room ≤ vec_capacity t.spans)
        × Stand t.bytes.items t.spans.items t.room };
}

impl Texts {
    /// No texts. Takes the memory for as many as fit into `room`.
    pub(crate) fn new(alloc: Global, room: usize) -> Result<Self, AllocError>
        ensures { IfOk result (λ texts. texts ≡ record { texts = []; room = room }) }
    {
        Ok(Texts {
            bytes: Vec::with_capacity(alloc, room)?,
            spans: Vec::with_capacity(alloc, room)?,
            room,
        })
    }

    /// What the texts take of the room.
    pub(crate) fn size(&self) -> usize
        ensures size { result ≡ texts_size self.now.texts }
        ensures fits { result ≤ self.now.room }
    {
        self.bytes.len() + self.spans.len()
    }

    /// The k-th text, counted from 0. None where there are no more texts.
    pub(crate) fn get(&self, k: usize) -> Option<&[u8]>
        ensures text { IfSome result (λ text. slice_get self.now.texts k ≡ Some text.now) }
        ensures none { result ≡ None → length self.now.texts ≤ k }
    {
        let span = *self.spans.get(k)?;
        Some(&self.bytes[span.start..span.end])
    }

    /// Puts the text last.
    pub(crate) fn push(&mut self, text: &[u8])
        requires { texts_size self.old.texts + (length text.now + 1) ≤ self.old.room }
        ensures { self.new ≡ record self.old { texts = self.old.texts ++ text.now ∷ [] } }
    {
        let start = self.bytes.len();
        self.bytes.extend_from_slice(text).unwrap();
        let end = self.bytes.len();
        self.spans.push(Span { start, end }).unwrap();
    }

    /// Has the words for its texts, and no others.
    pub(crate) fn replace(&mut self, words: &[Word])
        requires { texts_size words.now ≤ self.old.room }
        ensures { self.new ≡ record self.old { texts = words.now } }
    {
        self.clear();
        for word in words {
            self.push(word.as_str().as_bytes());
        }
    }

    fn clear(&mut self)
        ensures { self.new ≡ record self.old { texts = [] } }
    {
        self.bytes.clear();
        self.spans.clear();
    }
}
