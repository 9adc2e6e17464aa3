//! The shown objects in list order.

ghost use Rattle.std.specs.Prelude.{◌≡◌, ◌≤◌, ◌++◌, Some, IfOk, OnOk, IfSome, option_to_list};
ghost use Rattle.std.specs.FinMap as map_of;
ghost use Rattle.gd_base.specs.declared.ranges.TheConstants.{SESSION_EVENTS};
ghost use Rattle.gd_model.specs.Board.{listed};
ghost use Rattle.gd_model.specs.Drawing.{Drawing};
ghost use Rattle.gd_model.specs.Shown.{above, has_ends, is_between_shown, is_end, is_end_by, shown, shown_items};
ghost use Rattle.gd_model.specs.Shown.{stands};
ghost use Rattle.gd_slots.specs.Slots.{board_of};
ghost use Rattle.gd_view.specs.Chains.{Within};
ghost use Rattle.gd_view.specs.Sums.{known, AreKnown};
ghost use Rattle.gd_view.specs.Levels.{item_of};

use crate::items::item_by;
use crate::known::Known;
use crate::levels::levels;
use crate::seen::{is_gone, is_placed};
use crate::sums::sums;
use gd_base::{Ends, Item, Object, Stamp};
use gd_canvas::Canvas;
use gd_model::Above;
use std::alloc::{AllocError, Global};

/// The items of all objects that are shown, in list order.
#[tactic(auto, using(crate::proofs::LevelLemmas::shown_by_levels))]
pub(crate) fn shown_items(alloc: Global, canvas: &Canvas) -> Result<Vec<Item>, AllocError>
    requires { map_of.len (board_of canvas.now) ≤ SESSION_EVENTS }
    ensures { IfOk result (λ items. items.items ≡ shown_items (listed (board_of canvas.now))) }
{
    let table = sums(alloc, canvas)?;
    let levels = levels(alloc, canvas)?;
    let mut items = Vec::with_capacity(alloc, levels.len())?;
    for level in &levels {
        put_last(&mut items, item_of(canvas, &table, level.id)?)?;
    }
    Ok(items)
}

fn put_last(items: &mut Vec<Item>, item: Option<Item>) -> Result<(), AllocError>
    ensures { OnOk result (items.new.items ≡ items.old.items ++ option_to_list item) }
{
    if let Some(item) = item {
        items.push(item)?;
    }
    Ok(())
}

#[tactic(auto, using(crate::proofs::Rulesets::drawn))]
fn item_of(canvas: &Canvas, table: &Known, id: Stamp) -> Result<Option<Item>, AllocError>
    requires { AreKnown (listed (board_of canvas.now)) table.now }
    ensures { IfOk result (λ item. item
        ≡ item_of (listed (board_of canvas.now)) id
        (map_of.get (board_of canvas.now) id)) }
{
    match canvas.get(id) {
        Some(object) => item(canvas, table, id, object),
        None => Ok(None),
    }
}

fn item(
    canvas: &Canvas,
    table: &Known,
    id: Stamp,
    object: &Object,
) -> Result<Option<Item>, AllocError>
    requires known { AreKnown (listed (board_of canvas.now)) table.now }
    requires sum { known table.now id ≡ above (listed (board_of canvas.now)) id object.now.link }
    requires within { IfSome (known table.now id) (λ a. Within SESSION_EVENTS a) }
    ensures { IfOk result (λ item. item ≡ shown (listed (board_of canvas.now)) (id, object.now)) }
{
    if !has_ends(canvas, table, object) {
        return Ok(None);
    }
    match stands(table, id, object) {
        Some(sum) => {
            let item = item_by(id, object, &sum)?;
            Ok(Some(item))
        }
        None => Ok(None),
    }
}

/// What stands above an object, where it is shown but for its ends.
fn stands(table: &Known, id: Stamp, object: &Object) -> Option<Above>
    requires { IfSome (known table.now id) (λ a. Within SESSION_EVENTS a) }
    ensures above { (d : Drawing) → known table.now id ≡ above d id object.now.link
        → result ≡ stands d id object.now }
    ensures within { IfSome result (λ a. Within SESSION_EVENTS a) }
{
    if is_gone(object) {
        return None;
    }
    table.get(id)
}

/// Whether the ends of an object that has them are shown.
fn has_ends(canvas: &Canvas, table: &Known, object: &Object) -> bool
    requires { AreKnown (listed (board_of canvas.now)) table.now }
    ensures { result ≡ has_ends (listed (board_of canvas.now)) object.now }
{
    is_placed(object.kind) || is_between_shown(canvas, table, object.ends)
}

fn is_between_shown(canvas: &Canvas, table: &Known, ends: Option<Ends>) -> bool
    requires { AreKnown (listed (board_of canvas.now)) table.now }
    ensures { result ≡ is_between_shown (listed (board_of canvas.now)) ends }
{
    match ends {
        Some(ends) => is_end(canvas, table, ends.from) && is_end(canvas, table, ends.to),
        None => false,
    }
}

/// Whether a shape or a group of that id is shown.
#[tactic(auto, using(crate::proofs::Rulesets::drawn))]
fn is_end(canvas: &Canvas, table: &Known, id: Stamp) -> bool
    requires { AreKnown (listed (board_of canvas.now)) table.now }
    ensures { result ≡ is_end (listed (board_of canvas.now)) id }
{
    match canvas.get(id) {
        Some(object) => is_placed_there(canvas, table, id, object),
        None => false,
    }
}

fn is_placed_there(canvas: &Canvas, table: &Known, id: Stamp, object: &Object) -> bool
    requires sum { known table.now id ≡ above (listed (board_of canvas.now)) id object.now.link }
    requires within { IfSome (known table.now id) (λ a. Within SESSION_EVENTS a) }
    ensures { result ≡ is_end_by (listed (board_of canvas.now)) id (Some object.now) }
{
    is_placed(object.kind) && stands(table, id, object).is_some()
}
