//! The places of all objects in the stack, from bottom to top.

ghost use Rattle.std.specs.Prelude.{◌≡◌, ◌++◌, IfOk, OnOk, option_map, option_to_list};
ghost use Rattle.std.specs.FinMap as map_of;
ghost use Rattle.gd_model.specs.Board.{stack};
ghost use Rattle.gd_slots.specs.Slots.{board_of, value_at};
ghost use Rattle.gd_view.specs.Levels.{level_of};

use gd_base::Level;
use gd_canvas::Canvas;
use std::alloc::{AllocError, Global};

/// The levels of all objects. `AllocError` where memory ran out.
#[tactic(auto, unfolding(gd_base::specs::Stamps::stamp_cmp, gd_base::specs::Ranks::rank_cmp, gd_base::specs::Ranks::level_cmp))]
pub(crate) fn levels(alloc: Global, canvas: &Canvas) -> Result<Vec<Level>, AllocError>
    ensures { IfOk result (λ levels. levels.items ≡ map_of.keys (stack (board_of canvas.now))) }
{
    let mut levels = Vec::with_capacity(alloc, canvas.slots())?;
    for place in 0..canvas.slots() {
        add(&mut levels, level_at(canvas, place))?;
    }
    levels.sort_unstable();
    Ok(levels)
}

fn level_at(canvas: &Canvas, place: usize) -> Option<Level>
    ensures { result ≡ option_map level_of (value_at canvas.now place) }
{
    match canvas.at(place) {
        Some((id, object)) => Some(Level {
            rank: object.rank,
            id,
        }),
        None => None,
    }
}

fn add(levels: &mut Vec<Level>, level: Option<Level>) -> Result<(), AllocError>
    ensures { OnOk result (levels.new.items ≡ levels.old.items ++ option_to_list level) }
{
    if let Some(Level { rank, id }) = level {
        levels.push(Level { rank, id })?;
    }
    Ok(())
}
