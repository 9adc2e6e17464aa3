//! A drawing.

ghost use Rattle.std.specs.Prelude.{◌≡◌, [], ◌∷◌, IfOk, OnOk, codes};
ghost use Rattle.gd_base.specs.declared.item.Body.TheVariants.{Joined};
ghost use Rattle.gd_json.specs.Parts.{id_json};
ghost use Rattle.gd_json.specs.PictureJson.{at_fields, body_fields, item_fields, item_json, picture_json};
ghost use Rattle.gd_json.specs.Values.{plain, put_all, quoted};

use crate::array::{ArrayText, JsonText};
use crate::values::{Fields, Json};
use gd_base::{Body, Item, JoinedItem};
use gd_view::Picture;
use std::alloc::{AllocError, Global};

/// The drawing as one line of compact JSON: an array with an object for each item in printed order, and LF.
///
/// The keys stand in the order of their bytes. Ids, kinds and colours are strings as in the printed lines, places and
/// sizes arrays of two numbers, and where there is no parent or no fill stands null. Items are written one after
/// another, so that memory is taken for the text and for one item. `AllocError` where memory ran out; no other error
/// comes.
pub fn picture_json(alloc: Global, picture: &Picture) -> Result<JsonText, AllocError>
    ensures { IfOk result (λ line. line ≡ picture_json picture.now) }
{
    let mut array = ArrayText::new(alloc)?;
    for item in picture.as_slice() {
        let json = item_of(alloc, item)?;
        array.put(alloc, &json)?;
    }
    array.into_line()
}

#[tactic(auto, unfolding(gd_json::specs::PictureJson::item_json))]
pub(crate) fn item_of(alloc: Global, item: &Item) -> Result<Json, AllocError>
    ensures { IfOk result (λ json. json ≡ item_json item.now) }
{
    let mut fields = Fields::new(alloc);
    put_item(&mut fields, item)?;
    Ok(fields.close())
}

fn put_item(fields: &mut Fields, item: &Item) -> Result<(), AllocError>
    ensures { OnOk result (fields.new ≡ put_all fields.old (item_fields item.now)) }
{
    fields.id("id", item.id)?;
    fields.parent("in", item.parent)?;
    put_at(fields, item)?;
    put_body(fields, &item.body)
}

/// Puts where an item is shown that isn't shown between its ends.
fn put_at(fields: &mut Fields, item: &Item) -> Result<(), AllocError>
    ensures { OnOk result (fields.new ≡ put_all fields.old (at_fields item.now item.now.body)) }
{
    match &item.body {
        Body::Joined(_) => Ok(()),
        Body::Shape(_) | Body::Group => fields.two("at", item.at.x, item.at.y),
    }
}

/// Puts what only a shape has, or only a connector, or that the item is a group.
fn put_body(fields: &mut Fields, body: &Body) -> Result<(), AllocError>
    ensures { OnOk result (fields.new ≡ put_all fields.old (body_fields body.now)) }
{
    match body {
        Body::Shape(shape) => {
            fields.kind("kind", shape.kind)?;
            fields.label("label", shape.label.as_str())?;
            fields.pair("size", shape.w, shape.h)?;
            fields.look(&shape.look)
        }
        Body::Joined(joined) => put_joined(fields, joined),
        Body::Group => fields.word("kind", "group"),
    }
}

/// Puts what only a connector has.
fn put_joined(fields: &mut Fields, joined: &JoinedItem) -> Result<(), AllocError>
    ensures { OnOk result (fields.new ≡ put_all fields.old (body_fields (Joined joined.now))) }
{
    put_ends(fields, joined)?;
    fields.look(&joined.look)
}

/// Puts that it is a connector, its label and its ends.
fn put_ends(fields: &mut Fields, joined: &JoinedItem) -> Result<(), AllocError>
    ensures { OnOk result (fields.new ≡ put_all fields.old
        ((codes "kind", plain (codes "connector"))
        ∷ (codes "label", quoted joined.now.label)
        ∷ (codes "from", id_json joined.now.ends.from)
        ∷ (codes "to", id_json joined.now.ends.to)
        ∷ [])) }
{
    fields.word("kind", "connector")?;
    fields.label("label", joined.label.as_str())?;
    fields.id("from", joined.ends.from)?;
    fields.id("to", joined.ends.to)
}
