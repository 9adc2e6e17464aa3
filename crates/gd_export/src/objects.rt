//! Objects and ties as they were.

ghost use Rattle.std.specs.Prelude.{◌≡◌, [], ◌∷◌, IfOk, OnOk, codes, map, true};
ghost use Rattle.gd_export.specs.Texts.{is_quiet};
ghost use Rattle.gd_json.specs.EventsJson.{ends_fields, kind_or_group, link_json, object_fields, rank_json, state_of};
ghost use Rattle.gd_json.specs.EventsJson.{tie_json};
ghost use Rattle.gd_json.specs.Parts.{two};
ghost use Rattle.gd_json.specs.Values.{array, put_all, put_field, quoted};

use crate::values::{Fields, Items, Json};
use gd_base::{Ends, Kind, Link, Object, Rank, Tie};
use std::alloc::{AllocError, Global};

/// Puts the fields of an object, without its id.
pub(crate) fn put_object(fields: &mut Fields, object: &Object) -> Result<(), AllocError>
    ensures { OnOk result (fields.new ≡ put_all fields.old (object_fields object.now)) }
{
    put_form(fields, object)?;
    fields.look(&object.look)?;
    put_ends(fields, object.ends)?;
    put_state(fields, object)
}

/// Puts its kind, its place, its size and its label.
fn put_form(fields: &mut Fields, object: &Object) -> Result<(), AllocError>
    ensures { OnOk result (fields.new ≡ put_all fields.old
        ((codes "kind", kind_or_group object.now.kind)
        ∷ (codes "at", two object.now.x object.now.y)
        ∷ (codes "size", two object.now.w object.now.h)
        ∷ (codes "label", quoted object.now.label)
        ∷ [])) }
{
    put_kind(fields, object.kind)?;
    fields.pair("at", object.x, object.y)?;
    fields.pair("size", object.w, object.h)?;
    fields.label("label", object.label.as_str())
}

fn put_kind(fields: &mut Fields, kind: Kind) -> Result<(), AllocError>
    ensures { OnOk result (fields.new
        ≡ put_field fields.old (codes "kind", kind_or_group kind)) }
{
    match kind {
        Kind::Shape(shape) => fields.kind("kind", shape),
        Kind::Group => fields.word("kind", "group"),
        Kind::Connector => fields.word("kind", "connector"),
    }
}

/// Puts the ends of what has some.
pub(crate) fn put_ends(fields: &mut Fields, ends: Option<Ends>) -> Result<(), AllocError>
    ensures { OnOk result (fields.new ≡ put_all fields.old (ends_fields ends)) }
{
    match ends {
        Some(ends) => fields.both(ends),
        None => Ok(()),
    }
}

fn put_state(fields: &mut Fields, object: &Object) -> Result<(), AllocError>
    ensures { OnOk result (fields.new ≡ put_all fields.old (state_of object.now)) }
{
    let link = link_of(fields.alloc(), object.link)?;
    fields.put("link", link)?;
    fields.flag("dissolved", object.dissolved)?;
    fields.rank("rank", object.rank)
}

/// The group and the shift, or null.
#[tactic(auto, unfolding(gd_json::specs::EventsJson::link_json))]
fn link_of(alloc: Global, link: Option<Link>) -> Result<Json, AllocError>
    ensures { IfOk result (λ json. json ≡ link_json link) }
{
    match link {
        None => Ok(Json::null()),
        Some(link) => {
            let mut fields = Fields::new(alloc);
            fields.integer("dx", link.dx)?;
            fields.integer("dy", link.dy)?;
            fields.id("id", link.parent)?;
            Ok(fields.close())
        }
    }
}

/// The ties as an array.
pub(crate) fn ties_of(alloc: Global, ties: &[Tie]) -> Result<Json, AllocError>
    ensures { IfOk result (λ json. json ≡ array (map tie_json ties.now)) }
{
    let mut items = Items::new(alloc);
    for tie in ties {
        items.push(tie_of(alloc, tie)?)?;
    }
    Ok(items.close())
}

#[tactic(auto, unfolding(gd_json::specs::EventsJson::tie_json))]
fn tie_of(alloc: Global, tie: &Tie) -> Result<Json, AllocError>
    ensures { IfOk result (λ json. json ≡ tie_json tie.now) }
{
    let mut fields = Fields::new(alloc);
    fields.id("id", tie.id)?;
    let link = link_of(alloc, tie.link)?;
    fields.put("link", link)?;
    Ok(fields.close())
}

#[tactic(auto, unfolding(gd_json::specs::EventsJson::rank_json))]
fn rank_of(alloc: Global, rank: Rank) -> Result<Json, AllocError>
    ensures { IfOk result (λ json. json ≡ rank_json rank) }
{
    let mut fields = Fields::new(alloc);
    match rank {
        Rank::Low(stamp) => fields.id("low", stamp)?,
        Rank::High(stamp) => fields.id("high", stamp)?,
    }
    Ok(fields.close())
}

impl Fields {
    /// The stamp of a rank, under how high it is.
    pub(crate) fn rank(&mut self, key: &str, rank: Rank) -> Result<(), AllocError>
        requires { is_quiet key.now ≡ true }
        ensures { OnOk result (self.new ≡ put_field self.old (key.now, rank_json rank)) }
    {
        let rank = rank_of(self.alloc(), rank)?;
        self.put(key, rank)
    }
}
