//! What a site says.

ghost use Rattle.std.specs.Prelude.{◌≡◌, ◌++◌, ◌∷◌, [], OnOk};

use gd_words::Reply;
use std::alloc::{AllocError, Global};
use std::marker::Model;

/// Replies in the order in which they are given, which contracts see as their list.
#[derive(Drop)]
pub struct Replies {
    items: Vec<Reply>,
}

impl Model for Replies {
    ghost use Rattle.std.specs.Prelude.{List};
    ghost use Rattle.gd_lines.specs.declared.reply.Reply.{Reply as ReplyValue};

    ghost Value = { List ReplyValue };

    ghost view = { λ r. r.items.items };
}

impl Replies {
    /// No reply. It takes no memory.
    pub(crate) fn new(alloc: Global) -> Self
        ensures { result ≡ [] }
    {
        Replies {
            items: Vec::new(alloc),
        }
    }

    /// Puts a reply last. `AllocError` where memory ran out.
    pub(crate) fn push(&mut self, reply: Reply) -> Result<(), AllocError>
        ensures { OnOk result (self.new ≡ self.old ++ reply ∷ []) }
    {
        self.items.push(reply)?;
        Ok(())
    }

    pub fn as_slice(&self) -> &[Reply]
        ensures { result.now ≡ self.now }
    {
        self.items.as_slice()
    }
}
