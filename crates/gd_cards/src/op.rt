ghost use Rattle.std.specs.Prelude.{◌≡◌, ◌<◌};
ghost use Rattle.gd_cards.specs.Cards.{part_of};
ghost use Rattle.gd_cards.specs.declared.mark.TheConstants.{PARTS};

use crate::boxed_title::BoxedTitle;
use crate::mark::Mark;
use gd_base::Stamp;
use gd_events::Operation;
use std::alloc::{AllocError, Global};

/// A change of a card, over how titles are kept.
#[derive(Drop)]
pub enum CardChange<L> {
    ToTitle(L),
    ToMark(Mark),
}

/// An operation on a card board, over how titles are kept.
#[derive(Drop)]
pub enum Op<L> {
    /// A new card in a column, with the event's stamp as its id, and without votes. In a sound event the column is from
    /// 1 to `COLUMNS`.
    Add { column: u8, title: L },
    /// Changes the card of that id.
    Change { id: Stamp, change: CardChange<L> },
    /// Takes a card away.
    Remove { id: Stamp },
}

/// An operation on a card board, as an event has it, in the memory that it needs: a title lies in a box.
pub type CardOp = Op<BoxedTitle>;

impl<L> CardChange<L> {
    /// The number of the part that it changes.
    pub fn part(&self) -> u8
        ensures part { result ≡ part_of self.now }
        ensures few { result < PARTS }
    {
        match self {
            CardChange::ToTitle(_) => 1,
            CardChange::ToMark(mark) => mark.code().0,
        }
    }
}

impl Operation for CardOp {
    ghost use Rattle.gd_cards.specs.SoundCards.{IsCardOp};

    ghost IsOp = { IsCardOp };

    fn copy(&self, alloc: Global) -> Result<CardOp, AllocError> {
        Ok(match self {
            Op::Add { column, title } => {
                let title = title.copy(alloc)?;
                Op::Add {
                    column: *column,
                    title,
                }
            }
            Op::Change { id, change } => {
                let change = match change {
                    CardChange::ToTitle(title) => CardChange::ToTitle(title.copy(alloc)?),
                    CardChange::ToMark(mark) => CardChange::ToMark(*mark),
                };
                Op::Change { id: *id, change }
            }
            Op::Remove { id } => Op::Remove { id: *id },
        })
    }
}
