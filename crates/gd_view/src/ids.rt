//! The ids of all objects, in their order.

ghost use Rattle.std.specs.Prelude.{◌≡◌, ◌++◌, IfOk, OnOk, option_map, option_to_list};
ghost use Rattle.std.specs.FinMap as map_of;
ghost use Rattle.gd_slots.specs.Slots.{board_of, value_at};

use gd_base::Stamp;
use gd_canvas::Canvas;
use std::alloc::{AllocError, Global};

/// The ids of all objects. `AllocError` where memory ran out.
#[tactic(auto, unfolding(gd_base::specs::Stamps::stamp_cmp))]
pub fn ids(alloc: Global, canvas: &Canvas) -> Result<Vec<Stamp>, AllocError>
    ensures { IfOk result (λ ids. ids.items ≡ map_of.keys (board_of canvas.now)) }
{
    let mut ids = Vec::with_capacity(alloc, canvas.slots())?;
    for place in 0..canvas.slots() {
        add(&mut ids, id_at(canvas, place))?;
    }
    ids.sort_unstable();
    Ok(ids)
}

fn id_at(canvas: &Canvas, place: usize) -> Option<Stamp>
    ensures { result ≡ option_map (λ p. p.0) (value_at canvas.now place) }
{
    match canvas.at(place) {
        Some((id, _)) => Some(id),
        None => None,
    }
}

fn add(ids: &mut Vec<Stamp>, id: Option<Stamp>) -> Result<(), AllocError>
    ensures { OnOk result (ids.new.items ≡ ids.old.items ++ option_to_list id) }
{
    if let Some(id) = id {
        ids.push(id)?;
    }
    Ok(())
}
