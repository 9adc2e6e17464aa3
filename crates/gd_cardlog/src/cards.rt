//! Card boards as a kind of log.

ghost use Rattle.std.specs.Prelude.{◌≡◌, ◌≤◌, ◌+◌, ◌++◌, length};
ghost use Rattle.gd_cards.specs.CardBytes.{change_bytes};
ghost use Rattle.gd_grammar.specs.FieldBytes.{label_bytes};
ghost use Rattle.gd_grammar.specs.declared.sizes.TheConstants.{EVENT_BYTES};

use crate::card_op::card_op;
use gd_base::{Stamp, Title, Version};
use gd_cards::{BoxedTitle, CardChange, CardOp};
use gd_wire::{Bytes, EventBytes, LogKind, PackError};
use std::alloc::Global;

/// GDOB.
const MAGIC: u32 = 0x4744_4F42;

/// Card boards as a kind of log.
pub struct Cards;

impl LogKind for Cards {
    type Op = CardOp;

    ghost use Rattle.gd_cards.specs.CardBytes.{cards};
    ghost use Rattle.gd_cards.proofs.CardKind.{card_laws};

    ghost kind = { cards };

    ghost laws = { card_laws };

    fn magic() -> u32 {
        MAGIC
    }

    fn newest() -> Version {
        Version::One
    }

    fn read<'a>(
        alloc: Global,
        bytes: &mut Bytes<'a>,
        version: Version,
        stamp: Stamp,
    ) -> Result<CardOp, PackError> {
        card_op(alloc, bytes, version, stamp)
    }

    fn put(op: &CardOp, out: &mut EventBytes) {
        match op {
            CardOp::Add { column, title } => {
                out.put_byte(1);
                out.put_byte(*column);
                put_title(title.get(), out);
            }
            CardOp::Change { id, change } => {
                out.put_byte(change.part() + 1);
                out.put_stamp(*id);
                put_change(change, out);
            }
            CardOp::Remove { id } => {
                out.put_byte(5);
                out.put_stamp(*id);
            }
        }
    }
}

/// A title, or the byte of a mark, where it has one.
fn put_change(change: &CardChange<BoxedTitle>, out: &mut EventBytes)
    requires { length out.old + 201 ≤ EVENT_BYTES }
    ensures { out.new ≡ out.old ++ change_bytes change.now }
{
    match change {
        CardChange::ToTitle(title) => put_title(title.get(), out),
        CardChange::ToMark(mark) => {
            if let Some(value) = mark.code().1 {
                out.put_byte(value);
            }
        }
    }
}

/// The title, behind its length.
fn put_title(title: &Title, out: &mut EventBytes)
    requires { length out.old + 201 ≤ EVENT_BYTES }
    ensures { out.new ≡ out.old ++ label_bytes title.now }
{
    out.put_text(title.as_str());
}
