//! The objects of a drawing behind their ids.
ghost use Rattle.std.specs.Prelude.{◌≡◌, ◌++◌, IfOk, OnOk, option_to_list};
ghost use Rattle.std.specs.FinMap as map_of;
ghost use Rattle.gd_slots.specs.Slots.{board_of};
ghost use Rattle.gd_capture.specs.Placing.{placed_in};

use gd_base::Stamp;
use gd_canvas::{Canvas, Object};
use gd_handover::PlacedList;
use gd_view::ids::ids;
use std::alloc::{AllocError, Global};

/// Copies of the drawing's objects by their ids. `AllocError` where memory ran out.
pub(crate) fn placed_of(alloc: Global, canvas: &Canvas) -> Result<PlacedList, AllocError>
    ensures { IfOk result (λ placed. placed ≡ map_of.entries (board_of canvas.now)) }
{
    let ids = ids(alloc, canvas)?;
    let mut placed = PlacedList::new(alloc);
    'ids: for id in &ids {
        put_last(&mut placed, copy_of(canvas, *id)?)?;
    }
    Ok(placed)
}

/// A copy of the object of that id behind it, where it is there.
fn copy_of(canvas: &Canvas, id: Stamp) -> Result<Option<(Stamp, Object)>, AllocError>
    ensures { IfOk result (λ placed. placed ≡ placed_in (board_of canvas.now) id) }
{
    match canvas.get(id) {
        Some(object) => {
            let object = object.share()?;
            Ok(Some((id, object)))
        }
        None => Ok(None),
    }
}

fn put_last(placed: &mut PlacedList, object: Option<(Stamp, Object)>) -> Result<(), AllocError>
    ensures { OnOk result (placed.new ≡ placed.old ++ option_to_list object) }
{
    if let Some((id, object)) = object {
        placed.push(id, object)?;
    }
    Ok(())
}
