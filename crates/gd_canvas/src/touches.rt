//! What the form of an operation touches: parts of its object, and the links of those that it ties.
ghost use Rattle.std.specs.Prelude.{◌≡◌, ◌≤◌, ◌<◌, ◌+◌, length, slice_get};
ghost use Rattle.gd_base.specs.declared.ranges.TheConstants.{MOST_MEMBERS};
ghost use Rattle.gd_base.specs.Stamps.{Stamp as StampValue};
ghost use Rattle.gd_base.specs.declared.look.TheConstants.{LOOKS};
ghost use Rattle.gd_model.specs.Forms.{form};
ghost use Rattle.gd_model.specs.Relations.{touches};
ghost use Rattle.gd_canvas.specs.Kept.{op_of};
ghost use Rattle.gd_canvas.specs.Slots.{slot_needed};
ghost use Rattle.gd_canvas.specs.Touches.{first_part, object_of, own_parts, tied_at, ties_of};

use crate::kept::Kept;
use crate::swap::first_alone;
use crate::tied::id_at;
use gd_base::Stamp;
use gd_model::{LINK, WHOLE};

/// The id that the operation puts or takes at that stamp, which has to have a slot.
pub fn slot_needed(stamp: Stamp, kept: &Kept) -> Option<Stamp>
    ensures { result ≡ slot_needed (form stamp (op_of kept.now)) }
{
    match kept {
        Kept::Create { .. } | Kept::Connect { .. } | Kept::Group(_) => Some(stamp),
        Kept::Delete { id, .. } | Kept::Restore { id, .. } | Kept::Disband { id, .. } => Some(*id),
        Kept::Set { .. } => None,
    }
}

/// The object that an operation at that stamp is of.
pub fn object_of(stamp: Stamp, kept: &Kept) -> Stamp
    ensures { result ≡ object_of (form stamp (op_of kept.now)) }
{
    match kept {
        Kept::Create { .. } | Kept::Connect { .. } | Kept::Group(_) => stamp,
        Kept::Set { id, .. }
        | Kept::Delete { id, .. }
        | Kept::Restore { id, .. }
        | Kept::Disband { id, .. } => *id,
    }
}

/// How many parts of that object it touches, at any stamp.
fn own_count(kept: &Kept) -> usize
    ensures count { (stamp : StampValue)
        → result ≡ length (own_parts (form stamp (op_of kept.now))) }
    ensures some { 0 < result }
    ensures few { result ≤ LOOKS }
{
    match kept {
        Kept::Set { swap, .. } => swap.part_count(),
        _ => 1,
    }
}

/// The one of them at that place. None past the last one.
fn own_at(kept: &Kept, place: usize) -> Option<u8>
    ensures { (stamp : StampValue)
        → result ≡ slice_get (own_parts (form stamp (op_of kept.now))) place }
{
    match kept {
        Kept::Set { swap, .. } => swap.part_at(place),
        _ => first_alone(WHOLE, place),
    }
}

/// The first of them.
pub fn first_part(kept: &Kept) -> u8
    ensures { (stamp : StampValue) → result ≡ first_part (form stamp (op_of kept.now)) }
{
    match kept {
        Kept::Set { swap, .. } => swap.first_part(),
        _ => WHOLE,
    }
}

/// How many links an operation at that stamp ties.
pub fn tied_count(stamp: Stamp, kept: &Kept) -> usize
    ensures count { result ≡ length (ties_of (form stamp (op_of kept.now))) }
    ensures few { result ≤ MOST_MEMBERS }
{
    match kept {
        Kept::Group(grouping) => grouping.linked_count(stamp),
        Kept::Restore { tied, .. } | Kept::Disband { tied, .. } => tied.ties().len(),
        Kept::Create { .. } | Kept::Connect { .. } | Kept::Delete { .. } | Kept::Set { .. } => 0,
    }
}

/// The id of the object whose link it ties at that place. None past the last one.
pub fn tied_at(stamp: Stamp, kept: &Kept, place: usize) -> Option<Stamp>
    ensures { result ≡ tied_at stamp (op_of kept.now) place }
{
    match kept {
        Kept::Group(grouping) => grouping.linked_at(stamp, place),
        Kept::Restore { tied, .. } | Kept::Disband { tied, .. } => id_at(tied.ties(), place),
        Kept::Create { .. } | Kept::Connect { .. } | Kept::Delete { .. } | Kept::Set { .. } => None,
    }
}

/// How many touches an operation at that stamp has.
pub fn touch_count(stamp: Stamp, kept: &Kept) -> usize
    ensures count { result ≡ length (touches stamp (op_of kept.now)) }
    ensures some { 0 < result }
    ensures few { result ≤ MOST_MEMBERS + LOOKS }
{
    own_count(kept) + tied_count(stamp, kept)
}

/// Its touch at that place. None past the last one.
pub fn touch_at(stamp: Stamp, kept: &Kept, place: usize) -> Option<(Stamp, u8)>
    ensures { result ≡ slice_get (touches stamp (op_of kept.now)) place }
{
    if let Some(part) = own_at(kept, place) {
        return Some((object_of(stamp, kept), part));
    }
    match tied_at(stamp, kept, place - own_count(kept)) {
        Some(id) => Some((id, LINK)),
        None => None,
    }
}
