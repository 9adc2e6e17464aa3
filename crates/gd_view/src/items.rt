//! The item of one object: what is printed of it.

ghost use Rattle.std.specs.Prelude.{◌≡◌, ◌≤◌, length, IfOk};
ghost use Rattle.std.specs.FinMap as map_of;
ghost use Rattle.gd_base.specs.declared.ranges.TheConstants.{SESSION_EVENTS};
ghost use Rattle.gd_model.specs.Board.{listed};
ghost use Rattle.gd_model.specs.Shown.{body_of, item_at, joined_of, seen_as, shown_as};
ghost use Rattle.gd_slots.specs.Slots.{board_of};
ghost use Rattle.gd_view.specs.Chains.{Within};

use crate::seen::{has_ends, place_at, stands};
use gd_base::{Body, Ends, Item, JoinedItem, Kind, Object, ShapeItem, Stamp};
use gd_canvas::Canvas;
use gd_model::Above;
use std::alloc::AllocError;

/// The item of that id, or none where it isn't shown: it isn't there, is hidden, is a dissolved group, or a connector
/// of which an end isn't shown. It takes no memory; `AllocError` where its label has as many handles as can be counted.
#[tactic(auto, using(crate::proofs::Rulesets::drawn))]
pub fn item(canvas: &Canvas, id: Stamp) -> Result<Option<Item>, AllocError>
    requires { map_of.len (board_of canvas.now) ≤ SESSION_EVENTS }
    ensures { IfOk result (λ item. item ≡ seen_as (item_at id) (listed (board_of canvas.now)) id) }
{
    match canvas.get(id) {
        Some(object) => shown_item(canvas, id, object),
        None => Ok(None),
    }
}

fn shown_item(canvas: &Canvas, id: Stamp, object: &Object) -> Result<Option<Item>, AllocError>
    requires { length (listed (board_of canvas.now)) ≤ SESSION_EVENTS }
    ensures { IfOk result (λ item. item
        ≡ shown_as (item_at id) (listed (board_of canvas.now)) id object.now) }
{
    if !has_ends(canvas, object) {
        return Ok(None);
    }
    match stands(canvas, id, object) {
        Some(above) => {
            let item = item_by(id, object, &above)?;
            Ok(Some(item))
        }
        None => Ok(None),
    }
}

pub(crate) fn item_by(id: Stamp, object: &Object, above: &Above) -> Result<Item, AllocError>
    requires { Within SESSION_EVENTS above.now }
    ensures { IfOk result (λ item. item ≡ item_at id object.now above.now) }
{
    let at = place_at(object, above);
    let body = body_of(object)?;
    Ok(Item {
        id,
        parent: above.parent,
        at,
        body,
    })
}

fn body_of(object: &Object) -> Result<Body, AllocError>
    ensures { IfOk result (λ body. body ≡ body_of object.now.kind object.now) }
{
    match object.kind {
        Kind::Shape(kind) => {
            let label = object.label.share()?;
            Ok(Body::Shape(ShapeItem {
                kind,
                w: object.w,
                h: object.h,
                look: object.look,
                label,
            }))
        }
        Kind::Group => Ok(Body::Group),
        Kind::Connector => joined_of(object, object.ends),
    }
}

fn joined_of(object: &Object, ends: Option<Ends>) -> Result<Body, AllocError>
    ensures { IfOk result (λ body. body ≡ joined_of object.now ends) }
{
    match ends {
        Some(ends) => {
            let label = object.label.share()?;
            Ok(Body::Joined(JoinedItem {
                ends,
                look: object.look,
                label,
            }))
        }
        None => Ok(Body::Group),
    }
}
