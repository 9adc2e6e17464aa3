//! One object as it is shown.

ghost use Rattle.std.specs.Prelude.{◌≡◌, ◌≤◌, ◌+ℤ◌, ◌≤ℤ◌, pos, neg_ℤ, length, IfSome};
ghost use Rattle.std.specs.FinMap as map_of;
ghost use Rattle.gd_base.specs.declared.ranges.TheConstants.{SESSION_EVENTS};
ghost use Rattle.gd_model.specs.Board.{listed};
ghost use Rattle.gd_model.specs.Shown.{has_ends, is_between_shown, is_end, is_gone, shown_as, stands};
ghost use Rattle.gd_model.specs.Objects.{is_placed};
ghost use Rattle.gd_slots.specs.Slots.{board_of};
ghost use Rattle.gd_view.specs.Seen.{shown_at, seen, has_no_parent};
ghost use Rattle.gd_view.specs.Chains.{sum_limit, Within};

use crate::chains::above;
use crate::places::Shown;
use gd_base::{Ends, Kind, Object, Place, Stamp};
use gd_canvas::Canvas;
use gd_model::Above;

/// The object of that id as it is shown. None where it isn't shown: it isn't there, is hidden, or is a dissolved group.
#[tactic(auto, using(crate::proofs::Rulesets::drawn))]
pub fn shown(canvas: &Canvas, id: Stamp) -> Option<Shown>
    requires { map_of.len (board_of canvas.now) ≤ SESSION_EVENTS }
    ensures { result ≡ seen (listed (board_of canvas.now)) id }
{
    let object = canvas.get(id)?;
    shown_as(canvas, id, object)
}

/// Whether an object is shown, and stands in no group.
pub fn is_top(canvas: &Canvas, id: Stamp) -> bool
    requires { map_of.len (board_of canvas.now) ≤ SESSION_EVENTS }
    ensures { result ≡ has_no_parent (seen (listed (board_of canvas.now)) id) }
{
    match shown(canvas, id) {
        Some(shown) => shown.parent.is_none(),
        None => false,
    }
}

fn shown_as(canvas: &Canvas, id: Stamp, object: &Object) -> Option<Shown>
    requires { length (listed (board_of canvas.now)) ≤ SESSION_EVENTS }
    ensures { result ≡ shown_as shown_at (listed (board_of canvas.now)) id object.now }
{
    if !has_ends(canvas, object) {
        return None;
    }
    let above = stands(canvas, id, object)?;
    Some(shown_at(object, &above))
}

/// What stands above an object, where it is shown but for its ends.
pub(crate) fn stands(canvas: &Canvas, id: Stamp, object: &Object) -> Option<Above>
    requires { length (listed (board_of canvas.now)) ≤ SESSION_EVENTS }
    ensures above { result ≡ stands (listed (board_of canvas.now)) id object.now }
    ensures within { IfSome result (λ a. Within SESSION_EVENTS a) }
{
    if is_gone(object) {
        return None;
    }
    above(canvas, id, object.link)
}

/// Whether the ends of an object that has them are shown.
pub(crate) fn has_ends(canvas: &Canvas, object: &Object) -> bool
    requires { length (listed (board_of canvas.now)) ≤ SESSION_EVENTS }
    ensures { result ≡ has_ends (listed (board_of canvas.now)) object.now }
{
    is_placed(object.kind) || is_between_shown(canvas, object.ends)
}

fn is_between_shown(canvas: &Canvas, ends: Option<Ends>) -> bool
    requires { length (listed (board_of canvas.now)) ≤ SESSION_EVENTS }
    ensures { result ≡ is_between_shown (listed (board_of canvas.now)) ends }
{
    match ends {
        Some(ends) => is_end(canvas, ends.from) && is_end(canvas, ends.to),
        None => false,
    }
}

/// Whether a shape or a group of that id is shown.
#[tactic(auto, using(crate::proofs::Rulesets::drawn))]
fn is_end(canvas: &Canvas, id: Stamp) -> bool
    requires { length (listed (board_of canvas.now)) ≤ SESSION_EVENTS }
    ensures { result ≡ is_end (listed (board_of canvas.now)) id }
{
    match canvas.get(id) {
        Some(object) => is_placed(object.kind) && stands(canvas, id, object).is_some(),
        None => false,
    }
}

/// Whether an object of that kind has a place of its own.
pub(crate) fn is_placed(kind: Kind) -> bool
    ensures { result ≡ is_placed kind }
{
    match kind {
        Kind::Shape(_) | Kind::Group => true,
        Kind::Connector => false,
    }
}

fn shown_at(object: &Object, above: &Above) -> Shown
    requires { Within SESSION_EVENTS above.now }
    ensures { result ≡ shown_at object.now above.now }
{
    let at = place_at(object, above);
    let sum = place(above.dx, above.dy);
    Shown {
        parent: above.parent,
        at,
        above: sum,
        kind: object.kind,
    }
}

pub(crate) fn place_at(object: &Object, above: &Above) -> Place
    requires { Within SESSION_EVENTS above.now }
    ensures { result
        ≡ record { x = object.now.x +ℤ above.now.dx; y = object.now.y +ℤ above.now.dy } }
{
    place(moved(object.x, above.dx), moved(object.y, above.dy))
}

fn moved(own: i32, above: i64) -> i64
    requires low { neg_ℤ (pos sum_limit) ≤ℤ above }
    requires high { above ≤ℤ pos sum_limit }
    ensures { result ≡ own +ℤ above }
{
    i64::from(own) + above
}

fn place(x: i64, y: i64) -> Place
    ensures { result ≡ record { x = x; y = y } }
{
    Place { x, y }
}

/// Whether it is a dissolved group.
pub(crate) fn is_gone(object: &Object) -> bool
    ensures { result ≡ is_gone object.now }
{
    match object.kind {
        Kind::Group => object.dissolved,
        Kind::Shape(_) | Kind::Connector => false,
    }
}
