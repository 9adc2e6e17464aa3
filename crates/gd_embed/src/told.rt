//! What a member said last.
use gd_answers::Said;
use gd_export::JsonText;
use std::alloc::Global;
use std::marker::Model;
use std::mem;

/// A text that waits to be handed out. Contracts see its bytes.
#[derive(Drop)]
pub struct Told {
    kind: Kind,
    /// Memory of replies that were told before, for those to come.
    room: Option<Said>,
}

/// As it was made.
#[derive(Drop)]
enum Kind {
    Replies(Said),
    Json(JsonText),
    Bytes(Vec<u8>),
}

impl Model for Told {
    ghost use Rattle.std.specs.Prelude.{ℕ, List};
    ghost use Rattle.gd_embed.specs.Told.{told_bytes};

    ghost Value = { List ℕ };

    ghost view = { λ t. told_bytes t.kind };
}

impl Told {
    ghost use Rattle.std.specs.Prelude.{◌≡◌, []};

    /// Nothing. It takes no memory.
    pub fn nothing(alloc: Global) -> Told
        ensures { result ≡ [] }
    {
        Told::bytes(Vec::new(alloc))
    }

    /// No replies, to which some can be added.
    pub fn no_replies(&mut self, alloc: Global) -> Said
        ensures none { result ≡ [] }
        ensures same { self.new ≡ self.old }
    {
        match self.room.take() {
            Some(mut said) => {
                said.clear();
                said
            }
            None => Said::new(alloc),
        }
    }

    /// Tells these replies, in place of what there was.
    pub fn tell(&mut self, said: Said)
        ensures { self.new ≡ said }
    {
        if let Kind::Replies(before) = mem::replace(&mut self.kind, Kind::Replies(said)) {
            self.room = Some(before);
        }
    }

    /// A line of JSON.
    pub fn json(line: JsonText) -> Told
        ensures { result ≡ line }
    {
        Told {
            kind: Kind::Json(line),
            room: None,
        }
    }

    /// Bytes.
    pub fn bytes(bytes: Vec<u8>) -> Told
        ensures { result ≡ bytes.items }
    {
        Told {
            kind: Kind::Bytes(bytes),
            room: None,
        }
    }

    /// Its bytes.
    pub fn as_bytes(&self) -> &[u8]
        ensures { result.now ≡ self.now }
    {
        match &self.kind {
            Kind::Replies(said) => said.as_bytes(),
            Kind::Json(line) => line.as_str().as_bytes(),
            Kind::Bytes(bytes) => bytes.as_slice(),
        }
    }
}
