//! Reads operations on cards, into the memory that they need.

ghost use Rattle.std.specs.Prelude.{◌≡◌, Ok, Err, if◌then◌else◌};
ghost use Rattle.gd_base.specs.Results.{Gives};
ghost use Rattle.gd_cards.specs.declared.op.CardChange.TheVariants.{ToMark, ToTitle};
ghost use Rattle.gd_cards.specs.declared.op.Op.TheVariants.{Change};
ghost use Rattle.gd_cards.specs.CardBytes.{add_at, card_op_at, change_at, column_at, title_at};
ghost use Rattle.gd_cards.specs.Cards.{is_mark};
ghost use Rattle.gd_grammar.specs.Readers.{into};
ghost use Rattle.gd_wire.specs.Packed.{GivesPacked};
ghost use Rattle.gd_wire.specs.declared.pack_error.PackError.TheVariants.{Field};

use gd_base::{FieldFault, FieldWhy, Stamp, Version};
use gd_cards::{BoxedTitle, COLUMNS, CardChange, CardOp, Mark};
use gd_wire::{Bytes, PackError};
use std::alloc::Global;

/// How many bytes a title has at most.
const MOST_TITLE: u8 = 200;

/// The operation of the event with that stamp. `Field` at the tag where no operation has it, else the first fault of
/// its fields. `Memory` where memory ran out.
#[tactic(auto, unfolding(gd_cards::specs::CardBytes::card_op_at, gd_cards::specs::CardBytes::change_at, gd_cards::specs::CardBytes::byte_if, gd_grammar::specs::Readers::steps))]
pub fn card_op<'a>(
    alloc: Global,
    bytes: &mut Bytes<'a>,
    version: Version,
    stamp: Stamp,
) -> Result<CardOp, PackError>
    ensures { GivesPacked (λ op. (op, bytes.new)) result (card_op_at version stamp bytes.old) }
{
    let fault = bytes.fault(FieldWhy::Field);
    match bytes.byte()? {
        1 => add(alloc, bytes),
        2 => retitle(alloc, bytes, stamp),
        3 => {
            let id = bytes.id(stamp)?;
            let fault = bytes.fault(FieldWhy::Field);
            let column = bytes.byte()?;
            marked(id, Mark::Column(column), fault)
        }
        4 => {
            let id = bytes.id(stamp)?;
            marked(id, Mark::Vote(true), fault)
        }
        5 => {
            let id = bytes.id(stamp)?;
            Ok(CardOp::Remove { id })
        }
        _ => Err(PackError::Field(fault)),
    }
}

#[tactic(auto, unfolding(gd_cards::specs::CardBytes::add_at, gd_grammar::specs::Readers::steps))]
fn add<'a>(alloc: Global, bytes: &mut Bytes<'a>) -> Result<CardOp, PackError>
    ensures { GivesPacked (λ op. (op, bytes.new)) result (add_at bytes.old) }
{
    let column = column(bytes)?;
    let title = title(alloc, bytes)?;
    Ok(CardOp::Add { column, title })
}

#[tactic(auto, unfolding(gd_cards::specs::CardBytes::change_at, gd_grammar::specs::Readers::steps))]
fn retitle<'a>(alloc: Global, bytes: &mut Bytes<'a>, stamp: Stamp) -> Result<CardOp, PackError>
    ensures { GivesPacked (λ op. (op, bytes.new)) result
        (change_at stamp (into ToTitle title_at) bytes.old) }
{
    let id = bytes.id(stamp)?;
    let title = title(alloc, bytes)?;
    let change = CardChange::ToTitle(title);
    Ok(CardOp::Change { id, change })
}

/// The card's change to that mark, or `fault` where the mark is out of its range.
fn marked(id: Stamp, mark: Mark, fault: FieldFault) -> Result<CardOp, PackError>
    ensures { result ≡ (if is_mark mark then Ok (Change id (ToMark mark)) else Err (Field fault)) }
{
    if !mark.is_in_range() {
        return Err(PackError::Field(fault));
    }
    let change = CardChange::ToMark(mark);
    Ok(CardOp::Change { id, change })
}

/// A column, from 1 to `COLUMNS`. `Short` where it isn't there, and `Field` at it where it is out of that range.
#[tactic(auto, unfolding(gd_cards::specs::CardBytes::column_at, gd_cards::specs::CardBytes::byte_if, gd_grammar::specs::Readers::steps))]
fn column<'a>(bytes: &mut Bytes<'a>) -> Result<u8, FieldFault>
    ensures { Gives (λ column. (column, bytes.new)) result (column_at bytes.old) }
{
    let fault = bytes.fault(FieldWhy::Field);
    let column = bytes.byte()?;
    if column < 1 || column > COLUMNS {
        return Err(fault);
    }
    Ok(column)
}

#[inline(never)]
#[tactic(auto, unfolding(gd_cards::specs::CardBytes::title_at))]
fn title<'a>(alloc: Global, bytes: &mut Bytes<'a>) -> Result<BoxedTitle, PackError>
    ensures { GivesPacked (λ title. (title, bytes.new)) result (title_at bytes.old) }
{
    let title = bytes.title_within(MOST_TITLE)?;
    let title = BoxedTitle::new(alloc, title)?;
    Ok(title)
}
