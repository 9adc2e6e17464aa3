//! What becomes of an edit, and of one that names a single object.

ghost use Rattle.std.specs.Prelude.{◌≡◌, ◌≤◌, ◌-ℤ◌, Some, None, IfOk, MatchResult, option_map, if◌then◌else◌};
ghost use Rattle.std.specs.FinMap as map_of;
ghost use Rattle.gd_base.specs.Contents.{content_map};
ghost use Rattle.gd_base.specs.Ranges.{place_limit, is_within};
ghost use Rattle.gd_base.specs.Stamps.{Stamp as StampValue};
ghost use Rattle.gd_base.specs.declared.content.Content.TheVariants.{ToEnds};
ghost use Rattle.gd_base.specs.declared.content.Height.TheVariants.{To};
ghost use Rattle.gd_base.specs.declared.op.Op.TheVariants.{Set};
ghost use Rattle.gd_base.specs.declared.ranges.TheConstants.{SESSION_EVENTS};
ghost use Rattle.gd_base.specs.declared.refusal.EditRefusal.TheVariants.{NoObject};
ghost use Rattle.gd_events.specs.Ops.{Op as OpValue};
ghost use Rattle.gd_model.specs.Board.{listed};
ghost use Rattle.gd_slots.specs.Slots.{board_of};
ghost use Rattle.gd_reference.specs.Judging.{between, if_had, judged_over, moved_of, moved_to, of_drawn, of_group};
ghost use Rattle.gd_reference.specs.Judging.{of_shape, reconnect, reconnected, set_in, target};
ghost use Rattle.gd_model.specs.Objects.{is_connector, is_placed};
ghost use Rattle.gd_judging.specs.Faults.{EditIs};
ghost use Rattle.gd_judging.specs.Targets.{told, if_allowed, in_range};

use crate::faults::EditFault;
use crate::groups::group;
use gd_base::{
    Content, Edit, EditRefusal, Ends, Height, Label, Looks, PLACE_LIMIT, Place, Side, Stamp, Text,
    map_content,
};
use gd_canvas::{Canvas, Kind};
use gd_events::{Op, PackedLooks};
use gd_view::{Shown, shown};
use std::alloc::{AllocError, Global};

/// The operation that the edit becomes over this drawing, or the first of these refusals that applies, in this order:
/// `NoObject` where an object that it names isn't shown; `NotShape` where it wants a shape and the object is a group,
/// and `NotGroup` where it wants a group and the object is none; `NotPlaced` where it wants a place and the object is a
/// connector, and `NotConnector` where it wants a connector and the object is none; `SameMember` where a group names an
/// object twice, or both ends are one; `NotTop` where a group names an object that is in a group; `TooFar` where the
/// own place of a moved object, or the shift of a member, would leave its range. No other refusal comes. They are
/// decided before any memory is taken, and `Memory` comes where it then ran out.
///
/// Places of new shapes, sizes, looks and the number of ids are taken as they are.
pub fn judge(alloc: Global, canvas: &Canvas, edit: &Edit) -> Result<Op, EditFault>
    requires few { map_of.len (board_of canvas.now) ≤ SESSION_EVENTS }
    ensures { EditIs (judged_over (target (listed (board_of canvas.now))) edit.now) result }
{
    match edit {
        Edit::Create {
            kind,
            x,
            y,
            w,
            h,
            label,
        } => {
            let label = Text::new(alloc, label)?;
            Ok(Op::Create {
                kind: *kind,
                x: *x,
                y: *y,
                w: *w,
                h: *h,
                label,
            })
        }
        Edit::Delete { id } => {
            let _shown = named(canvas, *id)?;
            Ok(Op::Delete { id: *id })
        }
        Edit::Connect { ends, label } => {
            between(*ends, target(canvas, ends.from), target(canvas, ends.to))?;
            let label = Text::new(alloc, label)?;
            Ok(Op::Connect { ends: *ends, label })
        }
        Edit::Set { id, content } => {
            let shown = named(canvas, *id)?;
            set_in(alloc, canvas, &shown, *id, content)
        }
        Edit::Group { members } => group(alloc, canvas, members.as_slice()),
        Edit::Restore { object, .. } => match *object {},
        Edit::Disband { ties, .. } => match *ties {},
    }
}

/// The object of that id as it is shown, where it is.
#[tactic(auto, using(crate::proofs::Told::told_is_target))]
pub(crate) fn target(canvas: &Canvas, id: Stamp) -> Option<Shown>
    requires few { map_of.len (board_of canvas.now) ≤ SESSION_EVENTS }
    ensures { option_map told result ≡ target (listed (board_of canvas.now)) id }
{
    shown(canvas, id)
}

/// The same, or that it isn't.
fn named(canvas: &Canvas, id: Stamp) -> Result<Shown, EditRefusal>
    requires few { map_of.len (board_of canvas.now) ≤ SESSION_EVENTS }
    ensures { MatchResult result
        (λ shown. target (listed (board_of canvas.now)) id ≡ Some (told shown))
        (λ why. (target (listed (board_of canvas.now)) id ≡ None) × (why ≡ NoObject)) }
{
    match target(canvas, id) {
        Some(shown) => Ok(shown),
        None => Err(EditRefusal::NoObject),
    }
}

/// What sets a content in an object that is shown, or why nothing does.
fn set_in(
    alloc: Global,
    canvas: &Canvas,
    shown: &Shown,
    id: Stamp,
    content: &Content<Label, Looks, Side>,
) -> Result<Op, EditFault>
    requires few { map_of.len (board_of canvas.now) ≤ SESSION_EVENTS }
    ensures { EditIs
        (set_in (target (listed (board_of canvas.now))) id content.now (told shown.now)) result }
{
    match content {
        Content::ToPlace { x, y } => return Ok(moved_of(shown, id, *x, *y)?),
        Content::ToEnds(ends) => reconnect(canvas, shown, *ends)?,
        part => if_had(part, shown.kind)?,
    }
    let content = packed(alloc, content)?;
    Ok(Op::Set { id, content })
}

/// The content in the memory that it needs. `AllocError` where memory ran out.
fn packed(
    alloc: Global,
    content: &Content<Label, Looks, Side>,
) -> Result<Content<Text, PackedLooks, Height>, AllocError>
    ensures { IfOk result (λ packed. packed
        ≡ content_map (λ label. label) (λ looks. looks) To content.now) }
{
    Ok(map_content!(content,
        label => Text::new(alloc, label)?,
        looks => PackedLooks::new(alloc, looks)?,
        side => Height::To(*side)))
}

/// Whether an object of that kind has the part that is set, which is neither a place nor ends.
fn if_had(content: &Content<Label, Looks, Side>, kind: Kind) -> Result<(), EditRefusal>
    ensures { (change : OpValue) → if_allowed result change ≡ if_had content.now change kind }
{
    match content {
        Content::ToSize { .. } => of_shape(kind),
        Content::ToFlag(_) => of_group(kind),
        Content::ToRank(_) => Ok(()),
        _ => of_drawn(kind),
    }
}

/// Whether an object may have these ends: it is a connector, and both are shown, have a place, and aren't the same.
fn reconnect(canvas: &Canvas, shown: &Shown, ends: Option<Ends>) -> Result<(), EditRefusal>
    requires few { map_of.len (board_of canvas.now) ≤ SESSION_EVENTS }
    ensures { (id : StampValue) → if_allowed result (Set id (ToEnds ends))
        ≡ reconnect (target (listed (board_of canvas.now))) id ends (told shown.now) }
{
    match ends {
        None => Err(EditRefusal::NotConnector),
        Some(ends) => {
            let judged = between(ends, target(canvas, ends.from), target(canvas, ends.to));
            reconnected(is_connector(shown.kind), judged)
        }
    }
}

/// Whether a connector may have these ends: both are shown, have a place, and aren't the same.
fn between(ends: Ends, from: Option<Shown>, to: Option<Shown>) -> Result<(), EditRefusal>
    ensures { (change : OpValue) → if_allowed result change
        ≡ between change ends (option_map told from) (option_map told to) }
{
    let Some(from) = from else {
        return Err(EditRefusal::NoObject);
    };
    let Some(to) = to else {
        return Err(EditRefusal::NoObject);
    };
    if !(is_placed(from.kind) && is_placed(to.kind)) {
        return Err(EditRefusal::NotPlaced);
    }
    if ends.from.is_same(ends.to) {
        return Err(EditRefusal::SameMember);
    }
    Ok(())
}

/// Other ends for what is a connector.
fn reconnected(connects: bool, judged: Result<(), EditRefusal>) -> Result<(), EditRefusal>
    ensures { (change : OpValue) → if_allowed result change
        ≡ reconnected connects (if_allowed judged change) }
{
    match judged {
        Err(EditRefusal::NoObject) => Err(EditRefusal::NoObject),
        judged => {
            if connects {
                judged
            } else {
                Err(EditRefusal::NotConnector)
            }
        }
    }
}

fn is_connector(kind: Kind) -> bool
    ensures { result ≡ is_connector kind }
{
    match kind {
        Kind::Connector => true,
        Kind::Shape(_) | Kind::Group => false,
    }
}

/// Whether an object of that kind has a place of its own.
fn is_placed(kind: Kind) -> bool
    ensures { result ≡ is_placed kind }
{
    match kind {
        Kind::Shape(_) | Kind::Group => true,
        Kind::Connector => false,
    }
}

/// The move of an object that is to be shown there, which has to have a place.
fn moved_of(shown: &Shown, id: Stamp, x: i32, y: i32) -> Result<Op, EditRefusal>
    ensures { result ≡ moved_of id x y (told shown.now) }
{
    if is_placed(shown.kind) {
        moved(shown.above, id, x, y)
    } else {
        Err(EditRefusal::NotPlaced)
    }
}

/// Whether an object of that kind has a size: it has to be a shape.
fn of_shape(kind: Kind) -> Result<(), EditRefusal>
    ensures { (change : OpValue) → if_allowed result change ≡ of_shape change kind }
{
    match kind {
        Kind::Shape(_) => Ok(()),
        Kind::Group => Err(EditRefusal::NotShape),
        Kind::Connector => Err(EditRefusal::NotPlaced),
    }
}

/// Whether it has a look and a label: it has to be a shape or a connector.
fn of_drawn(kind: Kind) -> Result<(), EditRefusal>
    ensures { (change : OpValue) → if_allowed result change ≡ of_drawn change kind }
{
    match kind {
        Kind::Shape(_) | Kind::Connector => Ok(()),
        Kind::Group => Err(EditRefusal::NotShape),
    }
}

/// Whether it can be dissolved: it has to be a group.
fn of_group(kind: Kind) -> Result<(), EditRefusal>
    ensures { (change : OpValue) → if_allowed result change ≡ of_group change kind }
{
    match kind {
        Kind::Shape(_) | Kind::Connector => Err(EditRefusal::NotGroup),
        Kind::Group => Ok(()),
    }
}

/// The move of an object that is to be shown there, `above` away from its own place.
fn moved(above: Place, id: Stamp, x: i32, y: i32) -> Result<Op, EditRefusal>
    ensures { result ≡ moved_to id (x -ℤ above.x) (y -ℤ above.y) }
{
    match own_place(above, x, y) {
        Some((x, y)) => Ok(Op::Set {
            id,
            content: Content::ToPlace { x, y },
        }),
        None => Err(EditRefusal::TooFar),
    }
}

/// The own place of an object that is to be shown there, `above` away from it. None where it would leave its range.
fn own_place(above: Place, x: i32, y: i32) -> Option<(i32, i32)>
    ensures { result ≡ in_range (x -ℤ above.x) (y -ℤ above.y) }
{
    in_range(difference(x, above.x), difference(y, above.y))
}

/// In 128 bits, which hold any difference of the two.
fn difference(shown: i32, above: i64) -> i128
    ensures { result ≡ shown -ℤ above }
{
    i128::from(shown) - i128::from(above)
}

/// The two parts of a place or of a shift, where both are in their range.
pub(crate) fn in_range(x: i128, y: i128) -> Option<(i32, i32)>
    ensures { result ≡ in_range x y }
{
    let x = part_in_range(x)?;
    let y = part_in_range(y)?;
    Some((x, y))
}

fn part_in_range(value: i128) -> Option<i32>
    ensures { result ≡ (if is_within place_limit value then Some value else None) }
{
    let limit = i128::from(PLACE_LIMIT);
    if -limit <= value && value <= limit {
        Some(value as i32)
    } else {
        None
    }
}
