//! What stands above all objects, from the greatest id to the least: a link leads to a greater id, whose sum is known
//! by then.

ghost use Rattle.std.specs.Prelude.{◌≡◌, ◌≤◌, ◌+◌, Some, IsTrue, IfOk, IfSome, option_map, if◌then◌else◌};
ghost use Rattle.std.specs.FinMap as map_of;
ghost use Rattle.gd_base.specs.declared.ranges.TheConstants.{SESSION_EVENTS};
ghost use Rattle.gd_base.specs.Stamps as stamps;
ghost use Rattle.gd_base.specs.Stamps.{is_before};
ghost use Rattle.gd_model.specs.Board.{listed};
ghost use Rattle.gd_model.specs.Shown.{above, above_by};
ghost use Rattle.gd_slots.specs.Slots.{board_of};
ghost use Rattle.gd_view.specs.Chains.{Within};
ghost use Rattle.gd_view.specs.Sums.{known, above_at, AreKnown};

use crate::chains::{first_parent, group_at, parent_by, with_link};
use crate::ids::ids;
use crate::known::Known;
use gd_base::{Link, Object, Stamp};
use gd_canvas::Canvas;
use gd_model::Above;
use std::alloc::{AllocError, Global};

/// What stands above each object.
pub(crate) fn sums(alloc: Global, canvas: &Canvas) -> Result<Known, AllocError>
    requires few { map_of.len (board_of canvas.now) ≤ SESSION_EVENTS }
    ensures { IfOk result (λ table. AreKnown (listed (board_of canvas.now)) table) }
{
    let mut ids = ids(alloc, canvas)?;
    let mut table = Known::with_room(alloc, ids.len())?;
    let mut turn: u32 = 0;
    while let Some(id) = ids.pop() {
        let sum = sum_at(canvas, &table, id, turn);
        table.put(id, sum)?;
        turn += 1;
    }
    Ok(table)
}

/// What stands above the object of that id, by the sums that are known.
#[tactic(auto, using(crate::proofs::Rulesets::drawn))]
fn sum_at(canvas: &Canvas, table: &Known, id: Stamp, turn: u32) -> Option<Above>
    requires few { turn ≤ SESSION_EVENTS }
    requires greater { (p : stamps.Stamp) → IsTrue (is_before id p)
        → known table.now p ≡ above_at (listed (board_of canvas.now)) p }
    requires within { (p : stamps.Stamp) → IfSome (known table.now p) (λ a. Within turn a) }
    ensures above { result ≡ above_at (listed (board_of canvas.now)) id }
    ensures within { IfSome result (λ a. Within (1 + turn) a) }
{
    let object = canvas.get(id)?;
    let Some(link) = object.link else {
        return Some(Above {
            parent: None,
            dx: 0,
            dy: 0,
        });
    };
    sum_by(canvas, table, id, &link, turn)
}

/// What stands above an object with a link, by the sum that is known at the link's end.
fn sum_by(canvas: &Canvas, table: &Known, id: Stamp, link: &Link, turn: u32) -> Option<Above>
    requires few { turn ≤ SESSION_EVENTS }
    requires greater { IsTrue (is_before id link.now.parent)
        → known table.now link.now.parent
        ≡ above_at (listed (board_of canvas.now)) link.now.parent }
    requires within { IfSome (known table.now link.now.parent) (λ a. Within turn a) }
    ensures above { result ≡ above (listed (board_of canvas.now)) id (Some link.now) }
    ensures within { IfSome result (λ a. Within (1 + turn) a) }
{
    let group = group_at(canvas, id, link)?;
    let sum = table.get(link.parent)?;
    Some(through(&sum, link, group, turn))
}

/// What stands above a group's member, by what stands above the group.
fn through(sum: &Above, link: &Link, group: &Object, turn: u32) -> Above
    requires few { turn ≤ SESSION_EVENTS }
    requires within { Within turn sum.now }
    ensures sum { result ≡ above_by link.now group.now sum.now }
    ensures within { Within (1 + turn) result }
{
    let parent = first_parent(parent_by(link, group), sum.parent);
    with_link(sum, parent, link, group, turn)
}
