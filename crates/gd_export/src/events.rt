//! Events.

ghost use Rattle.std.specs.Prelude.{◌≡◌, IfOk, OnOk, map};
ghost use Rattle.gd_json.specs.EventsJson.{box_fields, content_fields, event_json, events_json, member_json, op_fields};
ghost use Rattle.gd_json.specs.Values.{array, put_all};

use crate::array::{ArrayText, JsonText};
use crate::objects::{put_ends, put_object, ties_of};
use crate::values::{Fields, Items, Json};
use gd_base::{Content, Height, Member, Side, Text};
use gd_events::{Event, EventList, Op, PackedLooks};
use std::alloc::{AllocError, Global};

/// The events as one line of compact JSON: an array with an object for each event in the list's order, and LF.
///
/// The keys stand in the order of their bytes: `clock`, `op`, `seq` and `site`, and the keys of the operation between
/// and behind them. Ids, kinds and colours are strings as in the printed lines, and no fill is null. Events are written
/// one after another, so that memory is taken for the text and for one event. `AllocError` where memory ran out; no
/// other error comes.
pub fn events_json(alloc: Global, events: &EventList) -> Result<JsonText, AllocError>
    ensures { IfOk result (λ line. line ≡ events_json events.now) }
{
    let mut array = ArrayText::new(alloc)?;
    for event in events.as_slice() {
        let json = event_of(alloc, event)?;
        array.put(alloc, &json)?;
    }
    array.into_line()
}

#[tactic(auto, unfolding(gd_json::specs::EventsJson::event_json))]
fn event_of(alloc: Global, event: &Event) -> Result<Json, AllocError>
    ensures { IfOk result (λ json. json ≡ event_json event.now) }
{
    let stamp = event.stamp();
    let mut fields = Fields::new(alloc);
    fields.count("clock", stamp.clock())?;
    fields.count("seq", u64::from(event.number()))?;
    fields.count("site", u64::from(stamp.site()))?;
    put_op(&mut fields, event.op())?;
    Ok(fields.close())
}

/// Puts the name of an operation, and what it has.
fn put_op(fields: &mut Fields, op: &Op) -> Result<(), AllocError>
    ensures { OnOk result (fields.new ≡ put_all fields.old (op_fields op.now)) }
{
    match op {
        Op::Create {
            kind,
            x,
            y,
            w,
            h,
            label,
        } => {
            fields.word("op", "create")?;
            fields.kind("kind", *kind)?;
            fields.label("label", label.as_str())?;
            put_box(fields, *x, *y, *w, *h)
        }
        Op::Delete { id } => {
            fields.word("op", "delete")?;
            fields.id("id", *id)
        }
        Op::Set { id, content } => {
            fields.id("id", *id)?;
            put_content(fields, content)
        }
        Op::Group { members } => {
            fields.word("op", "group")?;
            let members = members_of(fields.alloc(), members.as_slice())?;
            fields.put("members", members)
        }
        Op::Connect { ends, label } => {
            fields.word("op", "connect")?;
            fields.label("label", label.as_str())?;
            fields.both(*ends)
        }
        Op::Restore { id, object, ties } => {
            fields.word("op", "restore")?;
            fields.id("id", *id)?;
            let ties = ties_of(fields.alloc(), ties.as_slice())?;
            fields.put("ties", ties)?;
            put_object(fields, object.get())
        }
        Op::Disband { id, ties } => {
            fields.word("op", "disband")?;
            fields.id("id", *id)?;
            let ties = ties_of(fields.alloc(), ties.as_slice())?;
            fields.put("ties", ties)
        }
    }
}

/// Puts a place and a size.
fn put_box(fields: &mut Fields, x: i32, y: i32, w: i32, h: i32) -> Result<(), AllocError>
    ensures { OnOk result (fields.new ≡ put_all fields.old (box_fields x y w h)) }
{
    fields.integer("x", x)?;
    fields.integer("y", y)?;
    fields.integer("w", w)?;
    fields.integer("h", h)
}

/// Puts the name of what sets a content, and the content.
fn put_content(
    fields: &mut Fields,
    content: &Content<Text, PackedLooks, Height>,
) -> Result<(), AllocError>
    ensures { OnOk result (fields.new ≡ put_all fields.old (content_fields content.now)) }
{
    match content {
        Content::ToPlace { x, y } => {
            fields.word("op", "move")?;
            fields.integer("x", *x)?;
            fields.integer("y", *y)
        }
        Content::ToSize { w, h } => {
            fields.word("op", "resize")?;
            fields.integer("w", *w)?;
            fields.integer("h", *h)
        }
        Content::ToLooks(looks) => {
            fields.word("op", "restyle")?;
            fields.looks(&looks.looks())
        }
        Content::ToText(label) => {
            fields.word("op", "retext")?;
            fields.label("label", label.as_str())
        }
        Content::ToFlag(true) => fields.word("op", "ungroup"),
        Content::ToFlag(false) => fields.word("op", "reopen"),
        Content::ToEnds(ends) => {
            fields.word("op", "reconnect")?;
            put_ends(fields, *ends)
        }
        Content::ToRank(Height::To(Side::Top)) => fields.word("op", "raise"),
        Content::ToRank(Height::To(Side::Bottom)) => fields.word("op", "lower"),
        Content::ToRank(Height::At(rank)) => {
            fields.word("op", "rerank")?;
            fields.rank("rank", *rank)
        }
    }
}

/// The members of a group as an array.
fn members_of(alloc: Global, members: &[Member]) -> Result<Json, AllocError>
    ensures { IfOk result (λ json. json ≡ array (map member_json members.now)) }
{
    let mut items = Items::new(alloc);
    for member in members {
        items.push(member_of(alloc, member)?)?;
    }
    Ok(items.close())
}

#[tactic(auto, unfolding(gd_json::specs::EventsJson::member_json))]
fn member_of(alloc: Global, member: &Member) -> Result<Json, AllocError>
    ensures { IfOk result (λ json. json ≡ member_json member.now) }
{
    let mut fields = Fields::new(alloc);
    fields.integer("dx", member.dx)?;
    fields.integer("dy", member.dy)?;
    fields.id("id", member.id)?;
    Ok(fields.close())
}
